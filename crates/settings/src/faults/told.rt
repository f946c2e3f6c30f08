//! The faults that are told, in their order.

ghost use Rattle.std.specs.Prelude.{◌≡◌, OnOk};
ghost use Rattle.settings.specs.Told.{tell};

use crate::DraftFault;
use std::alloc::AllocError;

/// Tells what a check found. The error means that memory ran out.
pub(crate) fn tell(told: &mut Vec<DraftFault>, check: Option<DraftFault>) -> Result<(), AllocError>
    ensures { OnOk result (told.new.items ≡ tell told.old.items check) }
{
    if let Some(fault) = check {
        told.push(fault)?;
    }
    Ok(())
}
