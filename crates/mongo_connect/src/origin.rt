use std::marker::Brand;

/// What a link means as its recording begins. Each call that records picks it.
pub trait Origin {
    ghost use Rattle.mongo_wire.specs.Outside.{State};

    ghost origin: { State };
}

impl Origin for Brand {
    ghost use Rattle.std.specs.Prelude.{None};

    ghost origin = { record { left = None; read_faults = 0; ends = 0; written = None; flushed = 0; write_faults = 0 } };
}
