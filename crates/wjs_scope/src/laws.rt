//! Laws of bodies and places.
ghost use Rattle.wjs_scope.specs.Contents.{PlacesAreOfTexts};
ghost use Rattle.wjs_scope.specs.Places.{BodiesAreThere, PlacesStay};

/// A name has the place that its text has among the texts of the scopes' names: names are numbers, and of a table of texts each
/// has one.
pub fn places_are_of_texts()
    ensures { PlacesAreOfTexts }
{}

/// The body of a script, and of each function in its tree, is there, with all that stands in it.
pub fn bodies_are_there()
    ensures { BodiesAreThere }
{}

/// The places and the other variables of a program stay right as the table of texts grows, where the table has the names that have
/// places and the variables: `arguments` may get a number, but then none of these names has it.
pub fn places_stay()
    ensures { PlacesStay }
{}
