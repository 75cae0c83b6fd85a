ghost use Rattle.file_calls.specs.Findings.{deletion};
ghost use Rattle.file_calls.specs.TableView.{table_view};
ghost use Rattle.file_calls.specs.Deletes.{Deletes};

use crate::block::Block;
use cpmfiles::Table;
use std::alloc::AllocError;

/// Deletes the files that the control block names, and returns whether there were any (function 19). A pattern with
/// `?` names all files that match it. An `Err` means out of memory and changes no file.
pub fn delete_files(table: &mut Table<'_>, block: &Block) -> Result<bool, AllocError>
    ensures { Deletes (deletion block.now) (table_view table.old) result (table_view table.new) }
{
    Ok(table.delete(&block.key())? > 0)
}
