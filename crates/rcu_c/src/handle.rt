//! The handle that C keeps.
ghost use Rattle.std.specs.Prelude.{◌≡◌, if◌then◌else◌, IfOk, IsNone, IsOk, IsSome, Option, Some};
ghost use Rattle.std.specs.Prelude.{is_none, is_some};
ghost use Rattle.std.specs.Borrow.{sem};
ghost use Rattle.std.specs.Result.{result_err};
ghost use Rattle.rcu_c.specs.declared.contents.Contents.{Contents};
ghost use Rattle.rcu_c.specs.Handle.{handle_owns, contents_coded};
ghost use Rattle.rcu_c.specs.Holding.{HoldsEngine, HoldsSeat};
ghost use Rattle.rcu_c.specs.Refusals.{engine_refusal, return_refusal, seat_refusal};
ghost use Rattle.rcu_c.specs.Replicas.{HoldsReplica, replica_refusal};
ghost use Rattle.rcu_c.specs.Staying.{BothStay};

use crate::contents::Contents;
use crate::open_engine::OpenEngine;
use crate::open_replica::OpenReplica;
use crate::raw_box::RawBox;
use crate::refusal::Refusal;
use crate::seat_parts::SeatParts;
use std::alloc::Global;
use std::marker::Model;
use std::{mem, ptr};

/// A handle: a pointer, behind which an open one has what it holds, and null if it is closed. C
/// keeps it, and reads nothing of it.
#[repr(C)]
pub struct Handle {
    at: *mut u8,
    alloc: Global,
    pub ghost contents: { Option Contents } by { contents_coded },
}

/// An engine's handle (`rcu_t`), which lies under a lock of the caller's. Handles may pass between
/// threads.
pub type Rcu = Handle;

/// A seat's handle (`rcu_seat_t`): of one processor, for one thread at a time, beside all other
/// handles.
pub type RcuSeat = Handle;

impl Model for Handle {
    ghost also_owns = { λ h. handle_owns h.alloc h.at h.contents };
}

impl Handle {
    ghost use Rattle.rcu_c.specs.Lending.{lends_contents, lends_engine, lends_engine_if_ok};
    ghost use Rattle.rcu_c.specs.Lending.{lends_seat, lends_seat_if_ok};
    ghost use Rattle.rcu_c.specs.Lending.{lends_replica, lends_replica_if_ok};

    /// Returns a handle of what lies in a box.
    pub(crate) fn of(contents: RawBox<Contents, Global>) -> Handle
        ensures { result.contents ≡ Some contents.value }
    {
        let RawBox { at, alloc } = contents;
        Handle {
            at: at as *mut u8,
            alloc,
        }
    }

    /// Returns a closed handle: it points nowhere.
    pub(crate) fn closed(alloc: Global) -> Handle
        ensures { IsNone result.contents }
    {
        Handle {
            at: ptr::null_mut(),
            alloc,
        }
    }

    /// Returns whether the handle is open.
    pub(crate) fn is_open(&mut self) -> bool
        ensures value { result ≡ is_some self.old.contents }
        ensures unchanged { self.new ≡ self.old }
    {
        !self.at.is_null()
    }

    /// Returns the contents of an open handle.
    fn contents(&mut self) -> &mut Contents
        requires { IsSome self.old.contents }
        ensures* writes_back { sem 𝓛 (lends_contents self.entry result) }
        ensures value { self.old.contents ≡ Some result.now }
    {
        unsafe { &mut *(self.at as *mut Contents) }
    }

    /// Returns whether the handle is an open engine's.
    pub(crate) fn holds_engine(&mut self) -> bool
        ensures value { result ≡ is_none (engine_refusal self.old.contents) }
        ensures unchanged { self.new ≡ self.old }
    {
        self.is_open() && matches!(self.contents(), Contents::Engine(_))
    }

    /// Returns whether the handle is an open seat's.
    pub(crate) fn holds_seat(&mut self) -> bool
        ensures value { result ≡ is_none (seat_refusal self.old.contents) }
        ensures unchanged { self.new ≡ self.old }
    {
        self.is_open() && matches!(self.contents(), Contents::Seat(_))
    }

    /// Returns whether the handle is an open replica's.
    pub(crate) fn holds_replica(&mut self) -> bool
        ensures value { result ≡ is_none (replica_refusal self.old.contents) }
        ensures unchanged { self.new ≡ self.old }
    {
        self.is_open() && matches!(self.contents(), Contents::Replica(_))
    }

    /// Returns why a handle of the wrong kind is not taken. (Kept apart from the calls that take a
    /// handle: a section costs a quarter more with this code among them.)
    #[cold]
    #[inline(never)]
    fn refusal(&mut self) -> Refusal
        ensures value { result ≡ (if is_some self.old.contents
            then Refusal.OtherKind else Refusal.Closed) }
        ensures unchanged { self.new ≡ self.old }
    {
        if self.is_open() {
            Refusal::OtherKind
        } else {
            Refusal::Closed
        }
    }

    /// Returns the engine of an engine's handle.
    pub(crate) fn open_engine(&mut self) -> &mut OpenEngine
        requires { HoldsEngine self.old.contents }
        ensures* writes_back { sem 𝓛 (lends_engine self.entry result) }
        ensures value { self.old.contents ≡ Some (Contents.Engine result.now) }
    {
        match self.contents() {
            Contents::Engine(engine) => engine.engine(),
            Contents::Seat(_) | Contents::Replica(_) | Contents::Room => unreachable!(),
        }
    }

    /// Returns the seat of a seat's handle.
    pub(crate) fn open_seat(&mut self) -> &mut SeatParts
        requires { HoldsSeat self.old.contents }
        ensures* writes_back { sem 𝓛 (lends_seat self.entry result) }
        ensures value { self.old.contents ≡ Some (Contents.Seat result.now) }
    {
        match self.contents() {
            Contents::Seat(seat) => seat.parts(),
            Contents::Engine(_) | Contents::Replica(_) | Contents::Room => unreachable!(),
        }
    }

    /// Returns the replica of a replica's handle.
    fn open_replica(&mut self) -> &mut OpenReplica
        requires { HoldsReplica self.old.contents }
        ensures* writes_back { sem 𝓛 (lends_replica self.entry result) }
        ensures value { self.old.contents ≡ Some (Contents.Replica result.now) }
    {
        match self.contents() {
            Contents::Replica(replica) => replica,
            Contents::Engine(_) | Contents::Seat(_) | Contents::Room => unreachable!(),
        }
    }

    /// Returns the engine, or why the handle is not taken for an engine's.
    pub(crate) fn engine(&mut self) -> Result<&mut OpenEngine, Refusal>
        ensures* writes_back { sem 𝓛 (lends_engine_if_ok self.entry result) }
        ensures value { IfOk result (λ engine.
            self.old.contents ≡ Some (Contents.Engine engine.now)) }
        ensures fault { result_err result ≡ engine_refusal self.old.contents }
    {
        if self.holds_engine() {
            Ok(self.open_engine())
        } else {
            Err(self.refusal())
        }
    }

    /// Returns the seat, or why the handle is not taken for a seat's.
    pub(crate) fn seat(&mut self) -> Result<&mut SeatParts, Refusal>
        ensures* writes_back { sem 𝓛 (lends_seat_if_ok self.entry result) }
        ensures value { IfOk result (λ seat. self.old.contents ≡ Some (Contents.Seat seat.now)) }
        ensures fault { result_err result ≡ seat_refusal self.old.contents }
    {
        if self.holds_seat() {
            Ok(self.open_seat())
        } else {
            Err(self.refusal())
        }
    }

    /// Returns whether this is the handle of an open engine, and the other one that of an open seat
    /// of it; or why not.
    pub(crate) fn has_dealt(&mut self, seat: &mut RcuSeat) -> Result<(), Refusal>
        ensures fault { result_err result ≡ return_refusal self.old.contents seat.old.contents }
        ensures engine { IsOk result → HoldsEngine self.old.contents }
        ensures seat { IsOk result → HoldsSeat seat.old.contents }
        ensures unchanged { BothStay
            self.old.contents self.new.contents seat.old.contents seat.new.contents }
    {
        let engine = self.engine()?;
        let parts = seat.seat()?;
        if engine.owns(parts) {
            Ok(())
        } else {
            Err(Refusal::OtherEngine)
        }
    }

    /// Returns the replica, or why the handle is not taken for a replica's.
    pub(crate) fn replica(&mut self) -> Result<&mut OpenReplica, Refusal>
        ensures* writes_back { sem 𝓛 (lends_replica_if_ok self.entry result) }
        ensures value { IfOk result (λ replica.
            self.old.contents ≡ Some (Contents.Replica replica.now)) }
        ensures fault { result_err result ≡ replica_refusal self.old.contents }
    {
        if self.holds_replica() {
            Ok(self.open_replica())
        } else {
            Err(self.refusal())
        }
    }

    /// Closes an open handle. The caller has to put its contents into a box again.
    pub(crate) fn close(&mut self, alloc: Global) -> RawBox<Contents, Global>
        requires { IsSome self.old.contents }
        ensures value { self.old.contents ≡ Some result.value }
        ensures closed { IsNone self.new.contents }
    {
        mem::replace(self, Handle::closed(alloc)).into_raw_box()
    }

    /// Returns the contents of an open handle, to be put into a box again.
    pub(crate) fn into_raw_box(self) -> RawBox<Contents, Global>
        requires { IsSome self.contents }
        ensures { self.contents ≡ Some result.value }
    {
        let Handle { at, alloc } = self;
        RawBox {
            at: at as *mut Contents,
            alloc,
        }
    }
}

/// Frees nothing, so no open handle may be dropped: closing takes its box back first.
impl Drop for Handle {
    fn drop(self)
        requires closed { IsNone self.contents }
    {
        let Handle { at: _, alloc: _ } = self;
    }
}

unsafe impl Send for Handle {}
