// The board's own refusals: why eight blocks that were read make no board, each with its number.
ghost use Rattle.std.specs.Prelude.{◌≡◌};
ghost use Rattle.board_lanes.specs.Board.{board_number};

// Why blocks make no board.
#[derive(Clone, Copy)]
pub enum BoardRefusal {
    // Two filled lanes are of different races.
    RacesDiffer,
    // A filled block has another lane's byte.
    WrongLane,
    // A crew has a byte that is not 20h to 7Eh.
    BadCrew,
    // The last byte of a filled block is not zero.
    TailNotZero,
}

impl BoardRefusal {
    // Gives the number of a refusal.
    pub fn number(self) -> u8
        ensures { result ≡ board_number self }
    {
        match self {
            BoardRefusal::RacesDiffer => 40,
            BoardRefusal::WrongLane => 41,
            BoardRefusal::BadCrew => 42,
            BoardRefusal::TailNotZero => 43,
        }
    }
}
