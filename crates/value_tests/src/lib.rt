//! Tests of the crates for values, records and files, over their public calls, that cannot be lines of text: trees that no bytes
//! have, a caller that knows a codec by its bound alone, sources that refuse or make promises, sinks that are shown rows, buffers
//! of thousands of rows, tables of the texts of numbers. All other cases are lines of `value_cases` and `file_cases`.
#![tactic(auto)]

#[cfg(test)]
mod codecs;
#[cfg(test)]
mod decimal_bytes;
#[cfg(test)]
mod long_values;
#[cfg(test)]
mod number_texts;
#[cfg(test)]
mod refusals;
#[cfg(test)]
mod refusing_sources;
#[cfg(test)]
mod row_buffers;
#[cfg(test)]
mod row_sinks;
#[cfg(test)]
mod schemas;
#[cfg(test)]
mod trees_without_bytes;
