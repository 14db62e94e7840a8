// One line of a gate list: for how long each class is open or shut.
ghost use Rattle.std.specs.Prelude.{◌≡◌};
ghost use Rattle.gates.specs.Opened.{shows};

use units::Ticks;

#[derive(Clone, Copy, PartialEq, Eq, Debug)]
pub enum Gate {
    Open,
    Shut,
}

// For `length` ticks the gate of class c is `gates[c]`.
#[derive(Clone, Copy)]
pub struct GateLine {
    pub length: Ticks,
    pub gates: [Gate; 8],
}

impl GateLine {
    // Whether the class is open in this line; no class above 7 ever is.
    pub fn is_open(&self, class: u8) -> bool
        ensures { result ≡ shows self.now class }
    {
        matches!(self.gates.get(usize::from(class)), Some(Gate::Open))
    }
}
