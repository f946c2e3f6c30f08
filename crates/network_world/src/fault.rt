//! Why there is no network.

ghost use Rattle.std.specs.Prelude.{◌≡◌};
ghost use Rattle.network_world.specs.Faults.{network_fault_number};

/// Why there is no network of some settings.
#[derive(Clone, Copy, Debug, PartialEq, Eq)]
pub enum NetworkFault {
    /// Two of them are for the same point.
    SamePoint = 1,
    /// A link leads to no node with which its own shares a link set.
    NotJoined = 2,
    /// Memory ran out.
    NoMemory = 3,
}

impl NetworkFault {
    /// The fault's number, 1 to 3.
    pub fn number(self) -> u8
        ensures { result ≡ network_fault_number self }
    {
        self as u8
    }
}
