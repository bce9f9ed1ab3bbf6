//! Laws over the definitions: how bytes are cut into pieces doesn't matter, and what is left of them. There is nothing to run.
ghost use Rattle.mi_hub.specs.LineLaws.{LinesInPieces, LinesFromRests, LinesFromNothing};
ghost use Rattle.mi_hub.specs.RunLaws.{PiecesCutInTwo, RestOfAllBytes};

/// The lines of bytes a followed by b are those of a, and then those of a's rest followed by b; nothing else of a need be kept.
pub fn lines_in_pieces()
    ensures any_text { LinesInPieces }
    ensures rests { LinesFromRests }
    ensures nothing { LinesFromNothing }
{}

/// A piece that is cut in two adjacent pieces is answered the same and leaves the same, in any run, also beside refused events.
pub fn pieces_cut_in_two()
    ensures { PiecesCutInTwo }
{}

/// Of a connection that has come and not gone a run leaves the rest of all its bytes joined, whatever other connections did.
pub fn rest_of_all_bytes()
    ensures { RestOfAllBytes }
{}
