// Questions on service codes.
use service_code::code::{ServiceAttribute, ServiceCode, ServiceKind};
use test_stored::number16;

// An attribute's place in the Rust's enum, from 1.
fn place(a: ServiceAttribute) -> u8 {
    match a {
        ServiceAttribute::RandomReadWrite => 1,
        ServiceAttribute::RandomReadOnly => 2,
        ServiceAttribute::CyclicReadWrite => 3,
        ServiceAttribute::CyclicReadOnly => 4,
        ServiceAttribute::PurseDirect => 5,
        ServiceAttribute::PurseCashback => 6,
        ServiceAttribute::PurseDecrement => 7,
        ServiceAttribute::PurseReadOnly => 8,
    }
}

// A kind's number in the list.
fn kind_number(kind: Option<ServiceKind>) -> u8 {
    match kind {
        None => 0,
        Some(ServiceKind::Random) => 1,
        Some(ServiceKind::Cyclic) => 2,
        Some(ServiceKind::Purse) => 3,
    }
}

// Whether the list's decoded attribute, write and cashback are ours.
fn decoded(code: ServiceCode, place_told: u8, write: u8, cashback: u8) -> bool {
    match code.attribute() {
        None => place_told == 0 && write == 0 && cashback == 0,
        Some(a) => {
            place_told == place(a)
                && write == u8::from(a.allows_write())
                && cashback == u8::from(a.allows_cashback())
        }
    }
}

// A line `A`: code, number, attribute, decoded, kind, key, write, cashback.
pub(crate) fn attribute(b: &[u8]) -> bool {
    if b.len() != 10 {
        return false;
    }
    let code = ServiceCode(number16(b[0], b[1]));
    if code.number() != number16(b[2], b[3]) {
        return false;
    }
    if code.attributes() != b[4] {
        return false;
    }
    if kind_number(code.kind()) != b[6] {
        return false;
    }
    if u8::from(code.requires_key()) != b[7] {
        return false;
    }
    decoded(code, b[5], b[8], b[9])
}
