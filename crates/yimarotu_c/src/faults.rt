//! Why bytes are no message, and why a message has none, as numbers.
ghost use Rattle.std.specs.Prelude.{◌≡◌};
ghost use Rattle.yimarotu_c.specs.Faults.{reading_number, writing_number};

use hickory_proto_wire::{ToWireError, WireFault};

// The number of a fault of bytes.
pub(crate) fn reading_number(fault: WireFault) -> u8
    ensures { result ≡ reading_number fault }
{
    match fault {
        WireFault::Short => 1,
        WireFault::BadLabel => 2,
        WireFault::NameTooLong => 3,
        WireFault::TooManyPointers => 4,
        WireFault::PointerNotBack => 5,
        WireFault::TrailingData => 6,
        WireFault::OptName => 7,
        WireFault::SecondOpt => 8,
        WireFault::TooManyLabels => 10,
    }
}

// The number of a fault of a message. Memory that ran out is none.
pub(crate) fn writing_number(error: ToWireError) -> u8
    ensures { result ≡ writing_number error }
{
    match error {
        ToWireError::OutOfMemory => 0,
        ToWireError::RelativeName => 17,
        ToWireError::StringTooLong => 18,
        ToWireError::KnownType => 19,
        ToWireError::OpCodeTooLarge => 20,
        ToWireError::ResponseCodeTooLarge => 21,
        ToWireError::TooManyRecords => 22,
        ToWireError::LimitTooSmall => 23,
        ToWireError::DataTooLong => 24,
        ToWireError::NotSpelledOut => 25,
    }
}
