//! The date of a response.

ghost use Rattle.std.specs.Prelude.{◌≡◌};
ghost use Rattle.http_resp.specs.Moment.{fixdate};

use httpdate::HttpDate;
use txt_core::moment_of;

/// The moment as a Date field shows it.
pub fn fixdate(moment: u64) -> [u8; 29]
    ensures { result ≡ fixdate moment }
{
    HttpDate::from_unix_secs(moment_of(moment))
        .unwrap()
        .to_bytes()
}

/// A moment, with its date as a Date field shows it.
#[derive(Drop)]
pub(crate) struct Dated {
    pub(crate) moment: u64,
    text: [u8; 29],
    ghost shown: { text ≡ fixdate moment },
}

impl Dated {
    /// This moment, with its date.
    pub(crate) fn at(moment: u64) -> Dated
        ensures { result.moment ≡ moment }
    {
        Dated {
            moment,
            text: fixdate(moment),
        }
    }

    /// Makes it this moment. The date isn't made anew where it was this moment before.
    pub(crate) fn set(&mut self, moment: u64)
        ensures { self.new.moment ≡ moment }
    {
        if self.moment == moment {
            return;
        }
        *self = Dated::at(moment);
    }

    /// The date.
    pub(crate) fn bytes(&self) -> &[u8; 29]
        ensures { result.now ≡ fixdate self.now.moment }
    {
        &self.text
    }
}
