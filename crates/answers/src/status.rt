// Status bytes: where in a list an error is (status flag 1), and what it is (status flag 2).
ghost use Rattle.std.specs.Prelude.{◌≡◌, min};
ghost use Rattle.answers.specs.Status.{sf1_of, sf2_of, cause_of, rule_cause_of};

// Why an element or a rule fails. Several share a status byte; they stand apart so that a contract says which one it was.
#[derive(Clone, Copy)]
pub enum Fault {
    // The element's list index is beyond the codes.
    ListIndex,
    // The access mode is none that the request allows.
    AccessMode,
    // The code's attribute is undefined, or the code is the system's.
    Attribute,
    // The card has no such service.
    NoService,
    // An open request on a service that needs a key.
    KeyNeeded,
    // A write to a read-only service.
    ReadOnly,
    // Access mode 1 on a service without cashback.
    NoCashback,
    // The block number is not below the store's count.
    BlockNumber,
    // A cyclic write that does not name block 0.
    CyclicBlock,
    // A direct write that would raise the purse.
    PurseRaised,
    // A direct write that would raise the cashback.
    CashbackRaised,
    // A direct write whose cashback and the stored purse exceed four bytes.
    SumTooLarge,
    // A purse outside its service's limits.
    OutsideLimits,
    // A purse outside four bytes, of a service without limits.
    OutsideWord,
    // A cashback above the stored cashback.
    CashbackExceeds,
    // A cyclic run longer than the store.
    CyclicTooLong,
}

impl Fault {
    // Gives status flag 2 of a fault.
    pub fn status_flag2(self) -> u8
        ensures { result ≡ sf2_of self }
    {
        match self {
            Fault::ListIndex => 0xa3,
            Fault::AccessMode => 0xa7,
            Fault::Attribute => 0xa4,
            Fault::NoService => 0xa6,
            Fault::KeyNeeded => 0xa5,
            Fault::ReadOnly => 0xa5,
            Fault::NoCashback => 0xa5,
            Fault::BlockNumber => 0xa8,
            Fault::CyclicBlock => 0xa5,
            Fault::PurseRaised => 0xa5,
            Fault::CashbackRaised => 0xa5,
            Fault::SumTooLarge => 0xa5,
            Fault::OutsideLimits => 0x03,
            Fault::OutsideWord => 0x01,
            Fault::CashbackExceeds => 0x02,
            Fault::CyclicTooLong => 0xaf,
        }
    }

    // Gives which of its causes an A5 has, 1 to 7 in the order of the tests; 0 for a fault with another byte.
    pub fn cause(self) -> u8
        ensures { result ≡ cause_of self }
    {
        match self {
            Fault::KeyNeeded => 1,
            Fault::ReadOnly => 2,
            Fault::NoCashback => 3,
            _ => self.rule_cause(),
        }
    }

    // Gives which of its causes an A5 of a rule has, 4 to 7; 0 for a rule's other faults, and for those of the element check.
    fn rule_cause(self) -> u8
        ensures { result ≡ rule_cause_of self }
    {
        match self {
            Fault::CyclicBlock => 4,
            Fault::PurseRaised => 5,
            Fault::CashbackRaised => 6,
            Fault::SumTooLarge => 7,
            Fault::OutsideLimits => 0,
            Fault::OutsideWord => 0,
            Fault::CashbackExceeds => 0,
            Fault::CyclicTooLong => 0,
            _ => 0,
        }
    }
}

// Gives an index as a byte, and 254 for any above.
fn held(index: usize) -> u8
    ensures { result ≡ min index 254 }
{
    index.min(254) as u8
}

// Gives status flag 1 of an error at `index` of the block list, counted from 0: its place, counted from 1, and 255 for any place that
// a byte does not hold.
pub fn list_error_index(index: usize) -> u8
    ensures { result ≡ sf1_of index }
{
    held(index) + 1
}

// The first element of a list that fails, by its index, from 0, and why.
#[derive(Clone, Copy)]
pub struct Failure {
    pub index: usize,
    pub fault: Fault,
}
