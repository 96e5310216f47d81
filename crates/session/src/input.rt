// The bytes that a session begins with.
ghost use Rattle.std.specs.Prelude.{◌≡◌, take, drop};

// The bytes of an order.
const ORDER_BYTES: usize = 6;

// An order and a survey, not yet read.
#[derive(Clone, Copy)]
pub struct Input<'a> {
    pub order: &'a [u8],
    pub survey: &'a [u8],
}

impl<'a> Input<'a> {
    // The order comes first, and the rest is the survey. Fewer bytes than an order has are a short order.
    pub fn split(bytes: &'a [u8]) -> Input<'a>
        ensures order { result.order.now ≡ take 6 bytes.now }
        ensures survey { result.survey.now ≡ drop 6 bytes.now }
    {
        let (order, survey) = bytes.split_at_checked(ORDER_BYTES).unwrap_or((bytes, &[]));
        Input { order, survey }
    }
}
