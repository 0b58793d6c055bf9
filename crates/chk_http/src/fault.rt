//! Why a message is refused.

ghost use Rattle.std.specs.Prelude.{◌≡◌};

/// Why bytes are no request, no reply or no list of lines.
#[derive(Clone, Copy, Debug, PartialEq, Eq)]
pub enum HttpFault {
    /// No continuation of the bytes has a head, or a length is stated twice or isn't a number of 1
    /// to 19 digits below 2^63.
    BadHead = 1,
    /// No length is stated, or the body of a request is coded.
    NoLength = 2,
    /// The head has more than 16,384 bytes or 32 header lines, or the body more than 4,194,304
    /// bytes.
    TooLarge = 3,
    /// The bytes end before the head or the body does.
    NotYet = 4,
    /// The target is none of those that are served.
    BadPath = 5,
    /// The method is none that the target has.
    BadMethod = 6,
    /// A query or a line isn't as it has to be.
    BadLine = 7,
}

impl HttpFault {
    ghost use Rattle.chk_http.specs.Faults.{fault_code, fault_name};

    /// The status code of the reply to a request that is refused so. A request that isn't yet whole
    /// is a bad one where the message has ended.
    pub fn code(self) -> u16
        ensures { result ≡ fault_code self }
    {
        match self {
            HttpFault::BadHead | HttpFault::NotYet | HttpFault::BadLine => 400,
            HttpFault::BadPath => 404,
            HttpFault::BadMethod => 405,
            HttpFault::NoLength => 411,
            HttpFault::TooLarge => 413,
        }
    }

    /// The name that the reply's line has.
    pub fn name(self) -> &'static str
        ensures { result.now ≡ fault_name self }
    {
        match self {
            HttpFault::BadHead => "BadHead",
            HttpFault::NoLength => "NoLength",
            HttpFault::TooLarge => "TooLarge",
            HttpFault::NotYet => "NotYet",
            HttpFault::BadPath => "BadPath",
            HttpFault::BadMethod => "BadMethod",
            HttpFault::BadLine => "BadLine",
        }
    }
}
