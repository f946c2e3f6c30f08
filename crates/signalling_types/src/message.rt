//! A message signal unit, in place.

ghost use Rattle.std.specs.Prelude.{◌≡◌, ◌-◌, ◌^◌, ◌<◌, ◌≤◌, ◌++◌, ◌↔◌, length, drop, replicate, IsErr, IfOk, IfErr};
ghost use Rattle.signalling_types.specs.Message.{Message, service_indicator, network_indicator, is_management, lent};

use crate::cause::Cause;
use crate::limits::Limits;
use crate::msu_ref::MsuRef;
use std::marker::Model;

/// A message signal unit: a service information octet, and a signalling information field of at
/// most 272 octets, kept in place (Q.703 §2.3).
#[derive(Clone, Copy, Debug, PartialEq, Eq)]
pub struct Msu {
    octets: [u8; Limits::SIF_OCTETS],
    len: u16,
    sio: u8,
}

impl Model for Msu {
    ghost use Rattle.signalling_types.specs.Message.{Message};

    ghost Value = { Message };

    ghost use Rattle.signalling_types.specs.Room.{message_in, IsInPlace, put_in_place};
    ghost use Rattle.signalling_types.specs.InPlace.{put_in_place-message_in};

    ghost view = { message_in };

    ghost invariant = { IsInPlace };

    ghost inverse = { put_in_place };

    ghost inverse_ok = { put_in_place-message_in };
}

impl Msu {
    /// The message of a service information octet and a signalling information field.
    ///
    /// Refused TooLong exactly when the field has more than 272 octets.
    #[inline(always)]
    pub fn new(sio: u8, sif: &[u8]) -> Result<Msu, Cause>
        ensures long { IsErr result ↔ (Limits.SIF_OCTETS < length sif.now) }
        ensures cause { IfErr result (λ cause. cause ≡ Cause.TooLong) }
        ensures value { IfOk result (λ m. m ≡ record { sio = sio; sif = sif.now }) }
    {
        if sif.len() > Limits::SIF_OCTETS {
            return Err(Cause::TooLong);
        }
        let mut message = Msu {
            octets: [0; Limits::SIF_OCTETS],
            len: 0,
            sio,
        };
        message.refill(MsuRef { sio, sif });
        Ok(message)
    }

    /// The service information octet.
    #[inline(always)]
    pub fn sio(&self) -> u8
        ensures { result ≡ self.now.sio }
    {
        self.sio
    }

    /// The service indicator: 0 management, 1 testing, 3 SCCP, 4 TUP, 5 ISUP (Q.704 §14.2.1).
    #[inline(always)]
    pub fn service_indicator(&self) -> u8
        ensures value { result ≡ service_indicator self.now }
        ensures fits { service_indicator self.now < 2 ^ 4 }
    {
        self.sio % 16
    }

    /// The network indicator, 0 to 3 (Q.704 §14.2.2).
    #[inline(always)]
    pub fn network_indicator(&self) -> u8
        ensures value { result ≡ network_indicator self.now }
        ensures fits { network_indicator self.now < 2 ^ 2 }
    {
        self.sio / 64
    }

    /// The octets of the signalling information field.
    #[inline(always)]
    pub fn sif(&self) -> &[u8]
        ensures octets { result.now ≡ self.now.sif }
        ensures fits { length self.now.sif ≤ Limits.SIF_OCTETS }
    {
        &self.octets[..self.len as usize]
    }

    /// The message, lent.
    #[inline(always)]
    pub fn lend(&self) -> MsuRef<'_>
        ensures message { lent result ≡ self.now }
        ensures fits { length self.now.sif ≤ Limits.SIF_OCTETS }
    {
        MsuRef {
            sio: self.sio,
            sif: self.sif(),
        }
    }

    /// Becomes a copy of a lent message, in place.
    #[inline(always)]
    pub fn refill(&mut self, message: MsuRef<'_>)
        requires { length message.sif.now ≤ Limits.SIF_OCTETS }
        ensures { self.new ≡ lent message.entry }
    {
        replace(&mut self.octets, self.len as usize, message.sif);
        self.len = message.sif.len() as u16;
        self.sio = message.sio;
    }

    /// Whether it is a management or a test message; any other is a user message (Q.704 §14.2.1).
    #[inline(always)]
    pub fn is_management(&self) -> bool
        ensures { result ≡ is_management self.now }
    {
        self.service_indicator() < 2
    }
}

/// Becomes these octets and zeros after them, given that zeros come after the first `used`.
fn replace(octets: &mut [u8; Limits::SIF_OCTETS], used: usize, sif: &[u8])
    requires used { used ≤ Limits.SIF_OCTETS }
    requires cleared { drop used octets.old ≡ replicate (Limits.SIF_OCTETS - used) 0 }
    requires fits { length sif.now ≤ Limits.SIF_OCTETS }
    ensures { octets.new ≡ sif.now ++ replicate (Limits.SIF_OCTETS - length sif.now) 0 }
{
    clear_behind(octets, sif.len(), used);
    octets[..sif.len()].copy_from_slice(sif);
}

/// Clears what follows the first `count`, given that zeros come after the first `used`: no other octets are written.
fn clear_behind(octets: &mut [u8; Limits::SIF_OCTETS], count: usize, used: usize)
    requires used { used ≤ Limits.SIF_OCTETS }
    requires cleared { drop used octets.old ≡ replicate (Limits.SIF_OCTETS - used) 0 }
    ensures { drop count octets.new ≡ replicate (Limits.SIF_OCTETS - count) 0 }
{
    if count < used {
        octets[count..used].fill(0);
    }
}
