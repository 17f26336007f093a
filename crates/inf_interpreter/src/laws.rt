//! The worlds in which items are run.
ghost use Rattle.inf_interpreter.specs.Worlds.{WorldsSupply};

/// Makes, of any world, one that supplies the routines which the code calls (`supplying`), wherever no limit was
/// passed and the source declares by their names nothing but routines. So what the laws of code that is run take as
/// given of a world holds of some worlds.
pub fn worlds_supply()
    ensures { WorldsSupply }
{}
