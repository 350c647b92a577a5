//! Words as texts.

ghost use Rattle.std.specs.Prelude.{◌≡◌, map, IfOk, IfErr, string_bytes};
ghost use Rattle.bits.specs.declared.refusal.Refusal.TheVariants.{Memory};
ghost use Rattle.table.specs.Views.{names_view};
ghost use Rattle.commands.specs.Tasks.{lent_texts, columns_named};

use bits::R;
use std::alloc::Global;

/// The words, each as a text of its own. It fails only when out of memory.
pub fn owned(alloc: Global, words: &[&str]) -> R<Vec<String>>
    ensures same { IfOk result (λ texts. map string_bytes texts.items ≡ lent_texts words.now) }
    ensures memory { IfErr result (λ e. e ≡ Memory) }
{
    let mut texts = Vec::with_capacity(alloc, words.len())?;
    for word in words {
        texts.push(String::from_str(alloc, word)?)?;
    }
    Ok(texts)
}

/// The columns of these names, as a query is asked for them: none, which stands for all, where there are no names.
pub fn columns_named(names: &[String]) -> Option<&[String]>
    ensures { names_view result ≡ columns_named (map string_bytes names.now) }
{
    if names.is_empty() { None } else { Some(names) }
}
