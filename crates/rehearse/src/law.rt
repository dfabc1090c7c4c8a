//! What holds of files and their listings by the rules themselves.

ghost use Rattle.std.specs.Prelude.{◌≡◌, List};
ghost use Rattle.txt_core.specs.Names.{Bytes, Names};
ghost use Rattle.rehearse.specs.Events.{Event as SpelledEvent};
ghost use Rattle.rehearse.specs.Lines.{Line};
ghost use Rattle.rehearse.specs.Files.{End, Holds};
ghost use Rattle.rehearse.specs.Plays.{Plays, Lists, Reached};
ghost use Rattle.rehearse.specs.World.{World, opening};

/// A file holds at most one list of events, with one listing and one end, whatever natives there are.
pub fn one_file()
    ensures { (natives : Names) (text : Bytes) (d e : List SpelledEvent) (l m : List Line)
        (x y : End)
        → Holds natives text d l x → Holds natives text e m y
        → (d ≡ e) × (l ≡ m) × (x ≡ y) }
{}

/// Events that come one after another, from the opening on, have one listing, and lead to one world.
pub fn one_listing()
    ensures { (natives : Names) (events : List SpelledEvent) (l m : List Line) (after other : World)
        → Lists (opening natives) events l after → Lists (opening natives) events m other
        → (l ≡ m) × (after ≡ other) }
{}

/// In a world that some events led to, one thing is told of an event that comes, and it leads to one world.
pub fn one_outcome()
    ensures { (natives : Names) (world after other : World) (e : SpelledEvent) (l m : List Line)
        → Reached natives world → Plays world e l after
        → Plays world e m other → (l ≡ m) × (after ≡ other) }
{}
