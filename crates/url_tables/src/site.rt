//! What is kept of a registration.

ghost use Rattle.std.specs.Prelude.{◌≡◌};
ghost use Rattle.url_tables.specs.Urls.{last_of, fits};
ghost use Rattle.url_tables.specs.Searching.{has_pattern_as, serves};

use crate::shared::SharedWords;
use txt_core::Text;

/// The words that serve a request: those of a procedure and of its arguments.
#[derive(Debug, Drop)]
pub struct Route {
    pub words: SharedWords,
}

/// A registration, kept under the plain segments of its URL.
#[derive(Debug, Drop)]
pub(crate) struct Site {
    /// The method as it was registered.
    pub method: Text,
    /// In what the last segment of a path must end, where the URL ends in a pattern.
    pub suffix: Option<Text>,
    /// Whether it serves what stands below its URL as well.
    pub inherit: bool,
    /// What it serves.
    pub route: Route,
}

/// The last one of some texts; the empty text where there is none.
fn last_of(texts: &[Text]) -> &[u8]
    ensures { result.now ≡ last_of texts.now }
{
    let mut last: &[u8] = &[];
    for text in texts {
        last = text.bytes();
    }
    last
}

impl Site {
    /// Whether it serves a path of which this is left behind its plain segments.
    fn fits(&self, rest: &[Text]) -> bool
        ensures { result ≡ fits self.now.inherit self.now.suffix rest.now }
    {
        match &self.suffix {
            None => self.inherit || rest.is_empty(),
            Some(suffix) => {
                !rest.is_empty()
                    && (self.inherit || rest.len() == 1)
                    && last_of(rest).ends_with(suffix.bytes())
            }
        }
    }

    /// Whether its URL has a pattern, where it is to have one, or has none.
    fn has_pattern_as(&self, pattern: bool) -> bool
        ensures { result ≡ has_pattern_as pattern self.now.suffix }
    {
        if pattern {
            self.suffix.is_some()
        } else {
            self.suffix.is_none()
        }
    }

    /// Whether it serves a request with this method and this path, of which that is left behind its
    /// plain segments. Its URL has a pattern or has none, as `pattern` says.
    pub fn serves(&self, method: &[u8], rest: &[Text], pattern: bool) -> bool
        ensures { result ≡ serves pattern method.now rest.now self.now }
    {
        self.has_pattern_as(pattern) && self.method.bytes() == method && self.fits(rest)
    }
}
