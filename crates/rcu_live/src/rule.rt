//! The rule of the shared words, for their table, and the meaning of each kind of step on them.
ghost use Rattle.std.specs.Prelude.{◌≡◌};

use crate::client::{Client, NumberStep, WordStep};
use crate::view::View;
use crate::within::Within;
use atomic_table::{Play, Split, TableRule};
use std::marker::PhantomData;

/// The rule, with a client's part. The key of the table is the number of processors and the
/// client's plan.
pub struct Words<P> {
    client: PhantomData<P>,
}

impl<P: Client> TableRule<(), View<P::Known>, (u32, P::Plan)> for Words<P> {
    ghost use Rattle.rcu_live.specs.Asking.{IsMoment};
    ghost use Rattle.rcu_live.specs.View.{engine_seat};

    ghost holds = { λ key. IsMoment (P.holds key.1) key.0 };

    ghost first = { λ key. engine_seat key.0 0 (P.first key.1) };
}

/// Number load.
pub struct Load;

impl<S, C> Play<S, View<C>> for Load {
    ghost use Rattle.rcu_live.specs.View.{Loaded};

    ghost then = { λ _ me n now. Loaded me.0 n now.0 × (now.1 ≡ me.1) };
}

/// Section-opening load.
pub struct Open;

impl<S, C> Play<S, View<C>> for Open {
    ghost use Rattle.rcu_live.specs.View.{Opened};

    ghost then = { λ _ me n now. Opened me.0 n now.0 × (now.1 ≡ me.1) };
}

/// Section-closing load.
pub struct Close<P> {
    client: PhantomData<P>,
}

impl<P: Client> Play<(), View<P::Known>> for Close<P> {
    ghost use Rattle.rcu_live.specs.View.{Closed};

    ghost then = { λ _ me n now. Closed P.closed me.0 n now.0 × (now.1 ≡ me.1) };
}

/// Own-word store.
pub struct Store;

impl<S, C> Play<S, View<C>> for Store {
    ghost use Rattle.rcu_live.specs.View.{after_store};

    ghost then = { λ step me _ now. (now.0 ≡ after_store me.0 step.first) × (now.1 ≡ me.1) };
}

/// Online-mask step: sets the processor's bit.
pub struct SetOnlineBit;

impl<S, C> Play<S, View<C>> for SetOnlineBit {
    ghost use Rattle.rcu_live.specs.View.{after_announcement};

    ghost then = { λ _ me _ now. (now.0 ≡ after_announcement me.0) × (now.1 ≡ me.1) };
}

/// Own-word store of an arrival.
pub struct Arrive;

impl<S, C> Play<S, View<C>> for Arrive {
    ghost use Rattle.rcu_live.specs.View.{after_arrive_store};

    ghost then = { λ step me _ now.
        (now.0 ≡ after_arrive_store me.0 step.first) × (now.1 ≡ me.1) };
}

/// Online-mask step: clears the processor's bit.
pub struct ClearOnlineBit;

impl<S, C> Play<S, View<C>> for ClearOnlineBit {
    ghost then = { λ _ me _ now. (now.0 ≡ me.0) × (now.1 ≡ me.1) };
}

/// Online-mask load.
pub struct LoadOnlineMask;

impl<S, C> Play<S, View<C>> for LoadOnlineMask {
    ghost use Rattle.rcu_live.specs.View.{after_online_mask_load};

    ghost then = { λ _ me mask now. (now.0 ≡ after_online_mask_load me.0 mask) × (now.1 ≡ me.1) };
}

/// Processor-word load.
pub struct LoadOwn;

impl<S, C> Play<S, View<C>> for LoadOwn {
    ghost use Rattle.rcu_live.specs.View.{OwnWordLoaded};

    ghost then = { λ step me word now. OwnWordLoaded step.word me.0 word now.0 × (now.1 ≡ me.1) };
}

/// Begin store.
pub struct Begin;

impl<S, C> Play<S, View<C>> for Begin {
    ghost use Rattle.rcu_live.specs.View.{after_begin_store};

    ghost then = { λ step me _ now. (now.0 ≡ after_begin_store me.0 step.first) × (now.1 ≡ me.1) };
}

/// End store.
pub struct End;

impl<S, C> Play<S, View<C>> for End {
    ghost use Rattle.rcu_live.specs.View.{after_end_store};

    ghost then = { λ step me _ now. (now.0 ≡ after_end_store me.0 step.first) × (now.1 ≡ me.1) };
}

/// Asking: a processor is asked to wake the sleeping waiters. It is an exchange, which makes the
/// seat of that asking.
pub struct Ask;

impl<S, C> Play<S, View<C>> for Ask {
    ghost use Rattle.std.specs.Prelude.{◌+◌};
    ghost use Rattle.rcu_live.specs.declared.view.Role.TheVariants.{Asker};

    ghost then = { λ step _ _ now. (now.0.role ≡ Asker) × (step.first ≡ now.0.cpu + 1) };
}

/// Look of a processor's seat at which processor is asked.
pub struct LookAtAsked;

impl<S, C> Play<S, View<C>> for LookAtAsked {
    ghost use Rattle.std.specs.Prelude.{◌+◌, ◌==◌};
    ghost use Rattle.rcu_live.specs.View.{after_asked_load};

    ghost then = { λ _ me n now.
        (now.0 ≡ after_asked_load me.0 (n == me.0.cpu + 1)) × (now.1 ≡ me.1) };
}

/// Taking back, by the seat of the asked processor: no processor is asked any more.
pub struct TakeBack;

impl<S, C> Play<S, View<C>> for TakeBack {
    ghost use Rattle.rcu_live.specs.View.{after_take_back};

    ghost then = { λ _ me _ now. (now.0 ≡ after_take_back me.0) × (now.1 ≡ me.1) };
}

/// A client's step on one of its words.
pub struct OnWord<M> {
    step: PhantomData<M>,
}

impl<S, C, M: WordStep<C>> Play<S, View<C>> for OnWord<M> {
    ghost use Rattle.rcu_live.specs.View.{SteppedOnWord};

    ghost then = { λ step me n now. SteppedOnWord M.then step.word me.0 n now.0 × (now.1 ≡ me.1) };
}

/// A client's load of the number.
pub struct OnNumber<M> {
    step: PhantomData<M>,
}

impl<S, C, M: NumberStep<C>> Play<S, View<C>> for OnNumber<M> {
    ghost use Rattle.rcu_live.specs.View.{SteppedOnNumber};

    ghost then = { λ _ me n now. SteppedOnNumber M.then me.0 n now.0 × (now.1 ≡ me.1) };
}

/// Seat split: the next processor's seat.
pub struct DealCpu<P> {
    client: PhantomData<P>,
}

impl<P: Client> Split<View<P::Known>> for DealCpu<P> {
    ghost use Rattle.rcu_live.specs.View.{after_deal, next_cpu_seat};

    ghost left = { after_deal };

    ghost right = { λ v. next_cpu_seat (P.idle v.client) v };
}

/// Seat split: a watcher's seat.
pub struct DealWatcher<P> {
    client: PhantomData<P>,
}

impl<P: Client> Split<View<P::Known>> for DealWatcher<P> {
    ghost use Rattle.rcu_live.specs.View.{watcher_seat};

    ghost left = { λ v. v };

    ghost right = { λ v. watcher_seat v.base (P.idle v.client) };
}

/// Seat split: a watcher's seat that gets this seat's knowledge about the client.
pub struct HandOver<P> {
    client: PhantomData<P>,
}

impl<P: Client> Split<View<P::Known>> for HandOver<P> {
    ghost use Rattle.rcu_live.specs.View.{after_hand, handed_seat};

    ghost left = { λ v. after_hand (P.idle v.client) v };

    ghost right = { handed_seat };
}

/// Seat split: a watcher's seat that gets this seat's knowledge about a part of the client, and for
/// the rest has the knowledge of a dealt seat.
pub struct HandPartOver<C, P> {
    place: PhantomData<(C, P)>,
}

impl<C: Client, P: Within<C>> Split<View<<P::Whole as Client>::Known>> for HandPartOver<C, P> {
    ghost use Rattle.rcu_live.specs.View.{after_hand, watcher_seat};

    ghost left = { λ v. after_hand (P.lens.set v.client (C.idle (P.lens.get v.client))) v };

    ghost right = { λ v. watcher_seat v.base
        (P.lens.set (P.Whole.idle v.client) (P.lens.get v.client)) };
}
