// What goes to standard output and standard error, by the handle that the caller passes. specs/Going says what is handed over.
ghost use Rattle.liftlists.specs.Going.{IsNextPiece, IsLastPiece};

// A line on standard error; nothing more is written.
pub(crate) fn fail<E: Eprint>(rt: &E, line: &str) {
    let _ = rt.eprintln(line);
}

// Hands over bytes that come next in the lifted file, whatever the input goes on with; whether the write succeeded.
pub(crate) fn hand<P: Print>(rt: &P, text: &[u8]) -> bool
    requires { IsNextPiece text.now }
{
    rt.write_all(text).is_ok()
}

// Hands over the last bytes of the lifted file.
pub(crate) fn hand_last<S: Print + Eprint>(rt: &S, text: &[u8])
    requires { IsLastPiece text.now }
{
    if rt.write_all(text).is_err() {
        unwritten(rt);
    }
}

pub(crate) fn unwritten<E: Eprint>(rt: &E) {
    fail(rt, "liftlists: a write failed, and the file is not whole");
}

pub(crate) fn unread<E: Eprint>(rt: &E) {
    fail(rt, "liftlists: a read failed, and the file is not whole");
}
