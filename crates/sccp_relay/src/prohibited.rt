//! The subsystems at other points that are prohibited.

ghost use Rattle.std.specs.Prelude.{◌≡◌, [], ◌∷◌, ◌++◌, ◌<◌, not, filter, length, map, slice_get, IfOk};
ghost use Rattle.sccp_relay.specs.Statuses as rule;
ghost use Rattle.sccp_relay.specs.SubsystemTests.{stays};
ghost use Rattle.sccp_relay.specs.Values.{own_value};

use crate::Translations;
use crate::own::{Own, Ways};
use crate::subsystem::{PROHIBITED_SUBSYSTEMS, ProhibitedSubsystem, Subsystem};
use crate::subsystem_tests::test_selection;
use arrayvec::ArrayVec;
use std::alloc::{AllocError, Global};
use std::marker::Model;

/// At most 256 subsystems that are prohibited, in the order in which that was heard. It has room for all of them.
#[derive(Drop)]
pub(crate) struct Prohibited {
    subsystems: Vec<ProhibitedSubsystem>,
}

impl Model for Prohibited {
    ghost use Rattle.std.specs.Prelude.{List};
    ghost use Rattle.sccp_relay.specs.declared.subsystem.ProhibitedSubsystem.{ProhibitedSubsystem};

    ghost Value = { List ProhibitedSubsystem };

    ghost view = { λ p. p.subsystems.items };

    ghost use Rattle.sccp_relay.specs.ProhibitedRoom.{HasRoom};

    ghost invariant = { HasRoom };
}

impl Prohibited {
    /// None is prohibited. It allocates the room for all.
    pub(crate) fn none(alloc: Global) -> Result<Prohibited, AllocError>
        ensures { IfOk result (λ prohibited. prohibited ≡ []) }
    {
        let subsystems = Vec::with_capacity(alloc, PROHIBITED_SUBSYSTEMS)?;
        Ok(Prohibited { subsystems })
    }

    /// A copy, with room of its own.
    pub(crate) fn copy(&self, alloc: Global) -> Result<Prohibited, AllocError>
        ensures { IfOk result (λ prohibited. prohibited ≡ self.now) }
    {
        let mut copy = Prohibited::none(alloc)?;
        for index in 0..self.subsystems.len() {
            copy.add(self.subsystems[index]);
        }
        Ok(copy)
    }

    /// Whether a subsystem is prohibited, by a walk over all that are.
    pub(crate) fn has(&self, subsystem: &Subsystem) -> bool
        ensures { result ≡ rule.is_prohibited self.now subsystem.now }
    {
        self.subsystems
            .iter()
            .any(|other| subsystem.is(&other.subsystem))
    }

    /// Whether there are as many as there may be.
    pub(crate) fn is_full(&self) -> bool
        ensures { result ≡ rule.is_full self.now }
    {
        self.subsystems.len() >= PROHIBITED_SUBSYSTEMS
    }

    /// One more is prohibited.
    pub(crate) fn add(&mut self, subsystem: ProhibitedSubsystem)
        requires { length self.old < PROHIBITED_SUBSYSTEMS }
        ensures { self.new ≡ self.old ++ subsystem ∷ [] }
    {
        self.subsystems.push_reserved(subsystem);
    }

    /// A subsystem isn't prohibited any more.
    pub(crate) fn remove(&mut self, subsystem: &Subsystem)
        ensures { self.new ≡ filter (λ other. not (rule.is_same subsystem.now other.subsystem)) self.old }
    {
        self.subsystems
            .retain(|other| !subsystem.is(&other.subsystem));
    }

    /// The subsystem of this number, from 0, in the order in which they were heard of. None past the last.
    pub(crate) fn get(&self, index: usize) -> Option<ProhibitedSubsystem>
        ensures { result ≡ slice_get self.now index }
    {
        self.subsystems.get(index).copied()
    }

    /// How many there are.
    pub(crate) fn len(&self) -> usize
        ensures { result ≡ length self.now }
    {
        self.subsystems.len()
    }

    /// The subsystems of which a test is due.
    pub(crate) fn due(&self) -> ArrayVec<Subsystem, PROHIBITED_SUBSYSTEMS>
        ensures { result.items ≡ map (λ prohibited. prohibited.subsystem) (filter rule.is_due self.now) }
    {
        let mut due = ArrayVec::new();
        for index in 0..self.subsystems.len() {
            if self.subsystems[index].is_due() {
                due.push(self.subsystems[index].subsystem);
            }
        }
        due
    }

    /// A tick passes for each of them.
    pub(crate) fn count(&mut self, sst: u16)
        ensures { self.new ≡ map (rule.counted sst) self.old }
    {
        for prohibited in self.subsystems.iter_mut() {
            prohibited.count(sst);
        }
    }

    /// Those that don't stay prohibited are allowed again.
    pub(crate) fn keep<W: Ways>(&mut self, own: &Own<'_, W>, translations: &Translations)
        ensures { self.new ≡ filter (stays (own_value W.leads own.now) translations.now) self.old }
    {
        self.subsystems
            .retain(|prohibited| stays(prohibited, own, translations));
    }
}

/// Whether a subsystem stays prohibited: as long as its point is reached, and, once a test of it is due, if a row still
/// leads to it.
fn stays<W: Ways>(
    prohibited: &ProhibitedSubsystem,
    own: &Own<'_, W>,
    translations: &Translations,
) -> bool
    ensures { result ≡ stays (own_value W.leads own.now) translations.now prohibited.now }
{
    let subsystem = &prohibited.subsystem;
    own.reaches(subsystem.point, test_selection())
        && (!prohibited.is_due() || translations.lead_to(subsystem))
}
