//! The actions of the grammar. Made from docs/grammar.txt.

/// An action of the grammar. Where it speaks of the last token, that is the one taken last.
#[rattlefmt::skip]
#[derive(Clone, Copy, Debug, PartialEq, Eq)]
pub enum Action {
    Routine, EndLocals, EndRoutine, EndHeader, EndText, EndBody, EndDirective, Local, Arrow, VerbWord, Outer, Name, EndEntry, EndAlone,
    Semicolon, Hold, EndClass, EndProperty, EndValue, EndEmbedded, Negate, EndAttribute, EndLine, Token, Comma, Not, BitNot, Assign, And,
    Or, Equal, Unequal, Less, Greater, LessOrEqual, GreaterOrEqual, Has, HasNot, In, NotIn, OfClass, Provides, Count, Part, Plus, Minus,
    Times, Divide, Remainder, BitAnd, BitOr, ByteEntry, WordEntry, IncrementBefore, DecrementBefore, IncrementAfter, DecrementAfter,
    MemberAddress, MemberLength, Member, Call, Text, Bracket, Bracketed, Number, Char, Word, Action, System, Begin, Deeper, EndStatement,
    OuterMaybe, PrintText, OuterSure, OpenIf, EndIf, Else, Close, OpenWhile, EndWhile, OpenDo, Until, EndUntil, OpenFor, ForTop,
    EndForStart, EndForTest, EndForStep, OpenObjectloop, EndObjectloop, Loop, OpenSwitch, EndSwitch, OuterEnd, Set, Clear, AsmText, Store,
    Branch, BranchNot, PrintValue, Rule, PrintRule, Default, OuterWord, EndCase, To, MaybeDeeper,
}
