// Service codes (`types.rs` of the Rust): a number, which services share where they share a store, and an attribute, which says what
// a service is for and whether it needs a key.
ghost use Rattle.std.specs.Prelude.{◌≡◌};
ghost use Rattle.service_code.specs.Code.{number_of, attributes_of, plain_of, purse_of, table_of, decoded_of, attribute_of, kind_of, code_kind_of, requires_key, allows_write, allows_cashback};

// The kinds of service, each with its own rule for a write.
#[derive(Clone, Copy, PartialEq, Eq)]
pub enum ServiceKind {
    Random,
    Cyclic,
    Purse,
}

// What a service is for. Whether it needs a key is said by the code's lowest bit, not here.
#[derive(Clone, Copy)]
pub enum ServiceAttribute {
    RandomReadWrite,
    RandomReadOnly,
    CyclicReadWrite,
    CyclicReadOnly,
    PurseDirect,
    PurseCashback,
    PurseDecrement,
    PurseReadOnly,
}

impl ServiceAttribute {
    // Gives the service of kind 001 with these rights bits: a ring or not, by the upper one; read-only or not, by the lower.
    fn plain(upper: bool, lower: bool) -> ServiceAttribute
        ensures { result ≡ plain_of upper lower }
    {
        match (upper, lower) {
            (false, false) => ServiceAttribute::RandomReadWrite,
            (false, true) => ServiceAttribute::RandomReadOnly,
            (true, false) => ServiceAttribute::CyclicReadWrite,
            (true, true) => ServiceAttribute::CyclicReadOnly,
        }
    }

    // Gives the purse, kind 010, with these rights bits.
    fn purse(upper: bool, lower: bool) -> ServiceAttribute
        ensures { result ≡ purse_of upper lower }
    {
        match (upper, lower) {
            (false, false) => ServiceAttribute::PurseDirect,
            (false, true) => ServiceAttribute::PurseCashback,
            (true, false) => ServiceAttribute::PurseDecrement,
            (true, true) => ServiceAttribute::PurseReadOnly,
        }
    }

    // Gives the service of a kind with these rights bits; every other kind is undefined.
    #[tactic(auto, unfolding(crate::specs::Code::table_of))]
    fn table(kind: u8, upper: bool, lower: bool) -> Option<ServiceAttribute>
        ensures { result ≡ table_of kind upper lower }
    {
        match kind {
            0b001 => Some(ServiceAttribute::plain(upper, lower)),
            0b010 => Some(ServiceAttribute::purse(upper, lower)),
            _ => None,
        }
    }

    // Gives what the low six bits of `attribute` stand for: three kind bits, two rights bits, and the key bit, which is left aside.
    #[tactic(auto, unfolding(crate::specs::Code::decoded_of))]
    pub fn from_attribute_bits(attribute: u8) -> Option<ServiceAttribute>
        ensures { result ≡ decoded_of attribute }
    {
        let kind = attribute % 64 / 8;
        let upper = attribute / 4 % 2 == 1;
        let lower = attribute / 2 % 2 == 1;
        ServiceAttribute::table(kind, upper, lower)
    }

    // Gives the kind of service that an attribute belongs to.
    pub fn kind(self) -> ServiceKind
        ensures { result ≡ kind_of self }
    {
        match self {
            ServiceAttribute::RandomReadWrite | ServiceAttribute::RandomReadOnly =>
                ServiceKind::Random,
            ServiceAttribute::CyclicReadWrite | ServiceAttribute::CyclicReadOnly =>
                ServiceKind::Cyclic,
            _ => ServiceKind::Purse,
        }
    }

    // Tells whether a service with this attribute is ever written: a read-only one is not.
    pub fn allows_write(self) -> bool
        ensures { result ≡ allows_write self }
    {
        !matches!(
            self,
            ServiceAttribute::RandomReadOnly
                | ServiceAttribute::CyclicReadOnly
                | ServiceAttribute::PurseReadOnly
        )
    }

    // Tells whether a write in access mode 1, cashback, is accepted: one purse attribute alone has it.
    pub fn allows_cashback(self) -> bool
        ensures { result ≡ allows_cashback self }
    {
        matches!(self, ServiceAttribute::PurseCashback)
    }
}

// A service code, of 16 bits.
#[derive(Clone, Copy)]
pub struct ServiceCode(pub u16);

impl ServiceCode {
    // Gives the service number: the code's upper ten bits.
    #[tactic(auto, unfolding(crate::specs::Code::number_of))]
    pub fn number(self) -> u16
        ensures { result ≡ number_of self.0 }
    {
        self.0 / 64
    }

    // Gives the attribute's bits: the code's low six.
    #[tactic(auto, unfolding(crate::specs::Code::attributes_of))]
    pub fn attributes(self) -> u8
        ensures { result ≡ attributes_of self.0 }
    {
        (self.0 % 64) as u8
    }

    // Gives the attribute that those six bits stand for.
    #[tactic(auto, unfolding(crate::specs::Code::attribute_of))]
    pub fn attribute(self) -> Option<ServiceAttribute>
        ensures { result ≡ attribute_of self.0 }
    {
        ServiceAttribute::from_attribute_bits(self.attributes())
    }

    // Gives the kind of service, none where the attribute is undefined.
    #[tactic(auto, unfolding(crate::specs::Code::code_kind_of))]
    pub fn kind(self) -> Option<ServiceKind>
        ensures { result ≡ code_kind_of self.0 }
    {
        self.attribute().map(|attribute| attribute.kind())
    }

    // Tells whether a service needs a key: its lowest bit is 0. Of an area's code and of FFFF this says nothing; they always need one.
    #[tactic(auto, unfolding(crate::specs::Code::requires_key))]
    pub fn requires_key(self) -> bool
        ensures { result ≡ requires_key self.0 }
    {
        self.0 % 2 == 0
    }
}
