// What a part serves as, memory or flash: where it takes a version, and how many it may hold.
ghost use Rattle.std.specs.Prelude.{ℕ, Bool, List, [], ◌∷◌, ◌++◌};
ghost use Rattle.version.specs.Kinds.{StandsBetween, inserted, appended};
ghost use Rattle.version.specs.Lists.{insert, memory_place, flash_place};
ghost use Rattle.version.specs.declared.types.Version.{Version};

pub trait Kind {
    ghost MOST: { ℕ };

    // whether a version may go in among those that are held
    ghost place: { List Version → Version → Bool };

    // the versions with one that went in
    ghost put: { List Version → Version → List Version };

    // of what is held, what goes in leaves all as it stands
    ghost between: { (vs : List Version) (v : Version) → StandsBetween vs v (put vs v) };

    // How many versions such a part holds at most, however much memory it is lent.
    const MOST: usize;
}

// It takes a version at any place.
#[derive(Clone, Copy)]
pub struct Memory;

// It takes a version behind its last one.
#[derive(Clone, Copy)]
pub struct Flash;

impl Kind for Memory {
    ghost MOST = { 1024 };

    ghost place = { memory_place };

    ghost put = { insert };

    ghost between = { inserted };

    const MOST: usize = 1024;
}

impl Kind for Flash {
    ghost MOST = { 4096 };

    ghost place = { flash_place };

    ghost put = { λ vs v. vs ++ v ∷ [] };

    ghost between = { appended };

    const MOST: usize = 4096;
}
