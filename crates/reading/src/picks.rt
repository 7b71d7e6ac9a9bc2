// What an entry of a picks table says.
ghost use Rattle.reading.specs.Picks.{Picks};

use model::GIVE_UP;

// A state's pick: "65,535 = gives up", any other number is a row's.
#[derive(Clone, Copy)]
pub enum Pick {
    GiveUp,
    Row(usize),
}

impl From<u16> for Pick {
    ghost from_gives = { Picks };

    fn from(entry: u16) -> Pick {
        if entry == GIVE_UP {
            Pick::GiveUp
        } else {
            Pick::Row(entry as usize)
        }
    }
}
