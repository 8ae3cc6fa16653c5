// The random tape, and the guard that puts its place back.

ghost use Rattle.std.specs.Prelude.{◌≡◌, Some};
ghost use Rattle.std.specs.Option.{unwrap_or};

// The random bytes that all sides hold, and the place up to which they are used.
#[derive(Drop)]
pub struct Tape<'a> {
    pub bytes: &'a [u8],
    pub place: usize,
}

// The place of a tape, lent to an opening: at its end it is put back, unless the opening was marked done.
pub(crate) struct PlaceGuard<'a> {
    pub(crate) place: &'a mut usize,
    back: Option<usize>,
}

impl Drop for PlaceGuard<'_> {
    fn drop(self)
        ensures { self.exit.0.now ≡ unwrap_or self.entry.back self.entry.place.now }
    {
        let PlaceGuard { place, back } = self;
        if let Some(back) = back {
            *place = back;
        }
    }
}

impl<'a> PlaceGuard<'a> {
    pub(crate) fn start(place: &'a mut usize) -> PlaceGuard<'a>
        ensures back { result.back ≡ Some place.old }
        ensures now { result.place.now ≡ place.old }
        ensures name { result.place.ghost_name ≡ place.entry.ghost_name }
    {
        let back = Some(*place);
        PlaceGuard { place, back }
    }

    // The place stays where it is.
    pub(crate) fn mark_done(&mut self)
        ensures back { self.new.back ≡ None }
        ensures now { self.new.place.now ≡ self.old.place.now }
        ensures name { self.new.place.ghost_name ≡ self.old.place.ghost_name }
    {
        self.back = None;
    }
}
