//! The version.
ghost use Rattle.std.specs.Prelude.{◌≡◌};
ghost use Rattle.rcu_c.specs.Version.{version};

/// Returns the version of the library, as `RCU_VERSION` is that of its header. A program over the
/// shared object may compare the two.
#[unsafe(no_mangle)]
pub extern "C" fn rcu_version() -> u32
    ensures { result ≡ version }
{
    3000
}
