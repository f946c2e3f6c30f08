//! The changeback codes of one adjacent point.

ghost use Rattle.std.specs.Prelude.{◌≡◌, ◌<◌, false, not, position, replicate, slice_index_or, slice_set, IfSome};
ghost use Rattle.signalling_types.specs.declared.limits.TheConstants.Limits.{CHANGEBACK_CODES};

use signalling_types::Limits;
use std::marker::Model;

/// For each code of an adjacent point, whether its acknowledgement is awaited.
#[derive(Drop)]
pub(crate) struct SetCodes {
    outstanding: [bool; Limits::CHANGEBACK_CODES],
}

impl Model for SetCodes {
    ghost use Rattle.std.specs.Prelude.{Bool, List};

    ghost Value = { List Bool };

    ghost use Rattle.changeback.specs.Inside.{codes_in, HasCodes};

    ghost view = { codes_in };

    ghost invariant = { HasCodes };
}

impl SetCodes {
    /// No acknowledgement is awaited.
    pub(crate) fn new() -> SetCodes
        ensures { result ≡ replicate CHANGEBACK_CODES false }
    {
        SetCodes {
            outstanding: [false; Limits::CHANGEBACK_CODES],
        }
    }

    /// The least code that is free.
    pub(crate) fn free(&self) -> Option<u8>
        ensures code { result ≡ position not self.now }
        ensures fits { IfSome result (λ code. code < CHANGEBACK_CODES) }
    {
        for code in 0..Limits::CHANGEBACK_CODES {
            if !self.outstanding[code] {
                return Some(code as u8);
            }
        }
        None
    }

    /// Whether the acknowledgement of a code is awaited.
    pub(crate) fn is_outstanding(&self, code: u8) -> bool
        ensures { result ≡ slice_index_or self.now code false }
    {
        match self.outstanding.get(usize::from(code)) {
            Some(outstanding) => *outstanding,
            None => false,
        }
    }

    /// The acknowledgement of a code is awaited from now on, or not. A code that isn't there is ignored.
    pub(crate) fn put(&mut self, code: u8, outstanding: bool)
        ensures { self.new ≡ slice_set self.old code outstanding }
    {
        let code = usize::from(code);
        if code < Limits::CHANGEBACK_CODES {
            self.outstanding[code] = outstanding;
        }
    }
}
