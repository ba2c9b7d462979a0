// Why the program reads no further request.
ghost use Rattle.std.specs.Prelude.{◌≡◌};
ghost use Rattle.trial.specs.declared.stop.Stop.TheVariants.{Failed};

use std::io;

#[derive(Drop)]
pub enum Stop {
    // The input ends, or what comes next is no request.
    End,
    // A read or a write failed.
    Failed(io::Error),
}

impl From<io::Error> for Stop {
    ghost from_gives = { λ error stop. stop ≡ Failed error };

    fn from(error: io::Error) -> Stop {
        Stop::Failed(error)
    }
}
