//! Numbers and names are those that the directives of a source describe.
ghost use Rattle.inf_declaration_laws.specs.ArrayLaws.{BytesAgree, EntriesAgree, HeadersOpen};
ghost use Rattle.inf_declaration_laws.specs.Laws.{CountsAgree, NamesAgree};

/// States that behind directives with which nothing is wrong each name has the meaning of the description, and that there
/// are as many attributes, properties, variables and fake actions as it counts.
pub fn numbers_are_counts()
    ensures names { NamesAgree }
    ensures counts { CountsAgree }
{}

/// States that the header of an array with which nothing is wrong opens an array of its kind, whose name stands for the
/// place behind the arrays before it; that behind its entries the array has those of the description; and that these are
/// written as the description has the bytes of its kind.
pub fn arrays_are_described()
    ensures entries { EntriesAgree }
    ensures headers { HeadersOpen }
    ensures bytes { BytesAgree }
{}
