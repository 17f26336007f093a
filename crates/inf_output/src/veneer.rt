//! The routines of the veneer that templates call.
ghost use Rattle.std.specs.Prelude.{◌≡◌, ◌≤◌, length};
ghost use Rattle.inf_output.specs.Veneer.{name_of};

/// A routine that the code of an expression or of a statement calls by name. A source may declare the name itself.
#[derive(Clone, Copy)]
pub enum Veneer {
    /// Reads the value of a property of an object.
    ReadProperty,
    /// Stores the value of a property.
    WriteProperty,
    /// Computes the address of the values of a property.
    PropertyAddress,
    /// Computes the length of the values of a property in bytes.
    PropertyLength,
    /// Calls a property as a message to an object.
    CallProperty,
    /// Steps the value of a property.
    StepProperty,
    /// Stores a byte of an array and returns it.
    WriteByte,
    /// Stores a word of an array and returns it.
    WriteWord,
    /// Steps a byte of an array.
    StepByte,
    /// Steps a word of an array.
    StepWord,
    /// Counts the children of an object.
    Children,
    /// Tests whether something is of a class.
    OfClass,
    /// Tests whether an object has a property.
    Provides,
    /// Prints the short name of an object.
    ShortName,
    /// Prints the short name of an object with a definite article.
    DefiniteArticle,
    /// Prints the short name of an object with a definite article that begins with a capital.
    CapitalArticle,
    /// Prints the short name of an object with an indefinite article.
    IndefiniteArticle,
    /// Prints a number in words.
    EnglishNumber,
    /// Prints spaces.
    Spaces,
    /// Takes an action.
    Process,
}

impl Veneer {
    /// Returns the name of the routine, as messages spell it.
    pub fn name(self) -> &'static str
        ensures value { result.now ≡ name_of self }
        ensures short { length result.now ≤ 35 }
    {
        match self {
            Veneer::ReadProperty => "RV__Pr",
            Veneer::WriteProperty => "WV__Pr",
            Veneer::PropertyAddress => "RA__Pr",
            Veneer::PropertyLength => "RL__Pr",
            Veneer::CallProperty => "CA__Pr",
            Veneer::StepProperty => "AP__Va",
            Veneer::WriteByte => "SB__Va",
            Veneer::WriteWord => "SW__Va",
            Veneer::StepByte => "AB__Va",
            Veneer::StepWord => "AW__Va",
            Veneer::Children => "Ch__Ln",
            Veneer::OfClass => "OC__Cl",
            Veneer::Provides => "OP__Pr",
            Veneer::ShortName => "PrintShortName",
            Veneer::DefiniteArticle => "DefArt",
            Veneer::CapitalArticle => "CDefArt",
            Veneer::IndefiniteArticle => "InDefArt",
            Veneer::EnglishNumber => "EnglishNumber",
            Veneer::Spaces => "Sp__Pr",
            Veneer::Process => "R_Process",
        }
    }
}
