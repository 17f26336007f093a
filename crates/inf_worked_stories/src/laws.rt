//! Stories have these bytes.
ghost use Rattle.inf_worked_stories.specs.{Hello.HelloHasBytes, Sources.StoriesAreThese};

/// States all 976 bytes of the story of a source that prints one text.
pub fn hello_has_these_bytes()
    ensures { HelloHasBytes }
{}

/// States of four small sources that they have no error, and all bytes of their stories.
pub fn sources_have_these_stories()
    ensures { StoriesAreThese }
{}
