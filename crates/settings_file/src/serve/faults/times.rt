//! The faults of the keys of the table `serve.sctp`.

ghost use Rattle.std.specs.Prelude.{◌≡◌, OnOk};
ghost use Rattle.std.specs.Option.{option_map};
ghost use Rattle.toml.specs.View.{table_view};
ghost use Rattle.settings_file.specs.AllServeFaults.{order_fault, order_check, times_checks, sctp_checks};
ghost use Rattle.settings_file.specs.Noted.{all_noted};

use crate::faults::noting::note;
use crate::serve::fault::ServeFault;
use crate::serve::key::ServeKey;
use crate::serve::times::{heartbeat, sctp_in, timeout, tries, usual_times};
use std::alloc::AllocError;
use toml::Table;

/// Notes the faults of the table `sctp`, or of its keys.
#[tactic(auto, unfolding(crate::specs::AllServeFaults::sctp_checks))]
pub(crate) fn note_sctp(faults: &mut Vec<ServeFault>, serve: &Table) -> Result<(), AllocError>
    ensures { OnOk result (faults.new.items ≡ all_noted faults.old.items (sctp_checks (table_view serve.now))) }
{
    match sctp_in(serve) {
        Ok(sctp) => note_times(faults, sctp),
        Err(fault) => note(faults, Some(fault)),
    }
}

/// Notes the faults of the times and tries.
#[tactic(auto, unfolding(crate::specs::AllServeFaults::times_checks))]
fn note_times(faults: &mut Vec<ServeFault>, sctp: Option<&Table>) -> Result<(), AllocError>
    ensures { OnOk result (faults.new.items ≡ all_noted faults.old.items
        (times_checks (option_map (λ table. table_view table.now) sctp.entry))) }
{
    let usual = usual_times(true);
    let initial = timeout(sctp, ServeKey::RtoInitialMs, usual.rto_initial_ms);
    let least = timeout(sctp, ServeKey::RtoMinMs, usual.rto_min_ms);
    let most = timeout(sctp, ServeKey::RtoMaxMs, usual.rto_max_ms);
    note(faults, initial.err())?;
    note(faults, least.err())?;
    note(faults, most.err())?;
    note(
        faults,
        tries(sctp, ServeKey::InitTries, usual.init_tries).err(),
    )?;
    note(
        faults,
        tries(sctp, ServeKey::Retransmissions, usual.retransmissions).err(),
    )?;
    note(faults, heartbeat(sctp, usual.heartbeat_ms).err())?;
    note(faults, order_check(initial, least, most))?;
    Ok(())
}

/// How the three timeouts are ordered, if all can be read.
fn order_check(
    initial: Result<u32, ServeFault>,
    least: Result<u32, ServeFault>,
    most: Result<u32, ServeFault>,
) -> Option<ServeFault>
    ensures { result ≡ order_check initial least most }
{
    match (initial, least, most) {
        (Ok(initial), Ok(least), Ok(most)) => order_fault(initial, least, most),
        _ => None,
    }
}

fn order_fault(initial: u32, least: u32, most: u32) -> Option<ServeFault>
    ensures { result ≡ order_fault initial least most }
{
    if least <= initial && initial <= most {
        None
    } else {
        Some(ServeFault::Range(ServeKey::RtoInitialMs))
    }
}
