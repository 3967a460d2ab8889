// Where a positional is cut.
ghost use Rattle.runs.specs.Places.{FoundAt};
ghost use Rattle.attr_ir.specs.Look.{is_symbol};

use attr_ir::symbol_kind;
use runs::places::Places;
use token::TokenPlace;

// The place of the first kept Dots, Hash or Percent of any length, or `to`.
pub(crate) fn find_symbol(places: Places<'_>) -> TokenPlace
    ensures { FoundAt is_symbol places.entry.kinds.now places.entry.from.0 places.entry.to.0 result.0 }
{
    places.find(|p| symbol_kind(places.kinds[p.0]))
}
