ghost use Rattle.std.specs.Prelude.{◌≡◌};
ghost use Rattle.piece.specs.Worked.{WorkedPiecesStand};

// Sums and pieces worked by hand come out as written. Answers how many there are.
pub fn worked_pieces_stand() -> u8
    ensures pieces { WorkedPiecesStand }
    ensures count { result ≡ 13 }
{
    13
}
