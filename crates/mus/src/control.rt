// The attribute job aid for control tests.
ghost use Rattle.attributes.specs.Attributes.{ItemsPromise, BoundPromise};
ghost use Rattle.results.specs.Seen.{Sees};
ghost use Rattle.results.specs.Control.{items_seen, bound_seen};

use results::{AttributeBoundResult, AttributeSizeResult};

// The sample size.
#[unsafe(no_mangle)]
pub extern "C" fn mus_attribute_size(level: u8, tolerance: u8) -> AttributeSizeResult
    ensures { Sees items_seen (ItemsPromise level tolerance) result }
{
    attributes::size(level, tolerance).into()
}

// The upper bound for the exceptions found.
#[unsafe(no_mangle)]
pub extern "C" fn mus_attribute_bound(
    level: u8,
    tolerance: u8,
    exceptions: u64,
) -> AttributeBoundResult
    ensures { Sees bound_seen (BoundPromise level tolerance exceptions) result }
{
    attributes::bound(level, tolerance, exceptions).into()
}
