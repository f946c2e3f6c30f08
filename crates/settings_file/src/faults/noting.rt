//! Faults that are noted, one after another.

ghost use Rattle.std.specs.Prelude.{◌≡◌, ◌≢◌, Err, IfOk, OnOk};
ghost use Rattle.std.specs.Result.{result_unwrap_or};
ghost use Rattle.settings_file.specs.AllFaults.{fault_in};
ghost use Rattle.settings_file.specs.Noted.{noted};
ghost use Rattle.settings_file.specs.Faults.{no_memory};

use crate::fault::SettingsFault;
use settings::DraftFault;
use std::alloc::AllocError;

/// Notes a fault, if one was found. The error means that memory ran out.
pub(crate) fn note<F: Drop>(faults: &mut Vec<F>, check: Option<F>) -> Result<(), AllocError>
    ensures { OnOk result (faults.new.items ≡ noted faults.old.items check) }
{
    if let Some(fault) = check {
        faults.push(fault)?;
    }
    Ok(())
}

/// The fault of what was read, if it has one. The error means that memory ran out for it.
pub(crate) fn fault_of<T: Drop>(
    read: Result<T, SettingsFault>,
) -> Result<Option<SettingsFault>, AllocError>
    ensures fault { IfOk result (λ check. check ≡ fault_in read) }
    ensures memory { IfOk result (λ _. read ≢ Err no_memory) }
{
    match read {
        Ok(_) => Ok(None),
        Err(SettingsFault::Draft(DraftFault::NoMemory)) => Err(AllocError),
        Err(fault) => Ok(Some(fault)),
    }
}

/// What was read, or an empty one if it has a fault. The error means that memory ran out for it.
pub(crate) fn or_empty<T: Drop>(read: Result<T, SettingsFault>, empty: T) -> Result<T, AllocError>
    ensures value { IfOk result (λ value. value ≡ result_unwrap_or read empty) }
    ensures memory { IfOk result (λ _. read ≢ Err no_memory) }
{
    match read {
        Ok(value) => Ok(value),
        Err(SettingsFault::Draft(DraftFault::NoMemory)) => Err(AllocError),
        Err(_) => Ok(empty),
    }
}
