//! Tests of library calls, a module a crate: what no contract says, and each call once on its happy path; and small
//! records that show how one is declared. Whole calls of the program, with each fault of files and a sink in memory,
//! are played by the crate `calls`.
#![tactic(auto)]

#[cfg(test)]
mod contexts;
#[cfg(test)]
mod data_model_calls;
#[cfg(test)]
mod entry_ids_calls;
#[cfg(test)]
mod keyed_calls;
pub mod label;
#[cfg(test)]
mod label_calls;
#[cfg(test)]
mod ledger_core_calls;
#[cfg(test)]
mod ledger_files;
#[cfg(test)]
mod lms;
#[cfg(test)]
mod lms_standard;
#[cfg(test)]
mod outside_calls;
pub mod page;
#[cfg(test)]
mod roots;
#[cfg(test)]
mod shown;
#[cfg(test)]
mod signatures;
#[cfg(test)]
mod transaction_ids;
#[cfg(test)]
mod transaction_programs;
#[cfg(test)]
mod transactions;
#[cfg(test)]
mod validity;
#[cfg(test)]
mod validity_alone;
#[cfg(test)]
mod validity_clash;
#[cfg(test)]
mod validity_pairs;
#[cfg(test)]
mod vm_code_calls;
#[cfg(test)]
mod vm_num_calls;
#[cfg(test)]
mod vm_ops_calls;
#[cfg(test)]
mod vm_run_calls;
#[cfg(test)]
mod vm_stack_calls;
#[cfg(test)]
mod votes;
#[cfg(test)]
mod wire_calls;
#[cfg(test)]
mod written_ids;
