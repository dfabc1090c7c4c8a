//! Laws of questions.

ghost use Rattle.serving.specs.Laws.{MadeIsPublished};

use blueprint::scripts_are_read;

/// A question whether to publish definitions that their own commands make is the call that publishes
/// these definitions.
pub fn made_is_published()
    ensures { MadeIsPublished }
{
    scripts_are_read();
}
