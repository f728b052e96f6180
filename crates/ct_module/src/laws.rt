// The laws of columns, as functions with no code.
ghost use Rattle.ct_module.specs.ColumnLaws.{ColumnsGoBySymbols, TestedColumnsAreVectors};

/// The symbol of the last name acts last.
pub fn columns_go_by_symbols()
    ensures { ColumnsGoBySymbols }
{}

/// For a tested module the columns stand for the vectors of ct_telescoping.
pub fn tested_columns_are_vectors()
    ensures { TestedColumnsAreVectors }
{}
