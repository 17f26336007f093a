//! Objects and classes are those that the declarations of a source describe.
ghost use Rattle.inf_world_laws.specs.Laws.{AttributesAgree, ChildAgrees, ChildrenAgree, LatestAgree, OrderAgrees};
ghost use Rattle.inf_world_laws.specs.Laws.{PropertiesAgree, SiblingAgrees, ValuesAgree};
ghost use Rattle.inf_world_laws.specs.Parts.{BodiesAgree};
ghost use Rattle.inf_world_laws.specs.Whole.{WorldsAgree};
ghost use Rattle.inf_world_laws.specs.Rows.{ClassesAgree, LinksAreShown, TablesAreShown};

/// States that an object has of each property the values of its own body and its classes in order where the property is
/// additive, and else those of the first that gives it; that its properties come in the order in which they are given; and
/// that they are the list of the description.
pub fn properties_agree()
    ensures values { ValuesAgree }
    ensures order { OrderAgrees }
    ensures list { PropertiesAgree }
{}

/// States that an object has an attribute where its body says so last, or says nothing of it and a class has it.
pub fn attributes_agree()
    ensures { AttributesAgree }
{}

/// States that an object with arrows hangs below the latest one with one arrow less, and which children and which
/// sibling a number has.
pub fn trees_agree()
    ensures latest { LatestAgree }
    ensures children { ChildrenAgree }
    ensures child { ChildAgrees }
    ensures sibling { SiblingAgrees }
{}

/// States that the operations of the tables, one for each entry of the declarations in any list, come to the things of the
/// description, where they refuse none.
pub fn worlds_agree()
    ensures { WorldsAgree }
{}

/// States that the parts of bodies in any order, each by its operation of the tables, come to the things of the description,
/// where none is refused.
pub fn bodies_agree()
    ensures { BodiesAgree }
{}

/// States of three small stories that the tables have the things of the description. Of two of them the bytes are shown
/// in which an interpreter finds an object, and of two the links in the tree.
pub fn rows_are_evaluated()
    ensures classes { ClassesAgree }
    ensures tables { TablesAreShown }
    ensures links { LinksAreShown }
{}
