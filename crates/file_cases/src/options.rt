//! Options of writing, and how they are written: `standard`, or what differs from that, as `group=7,page=3,version=2,style=delta`.

use bits::{R, Refusal};
use case_words::small_natural;
use footer::WriteOptions;
use pages::PageVersion;
use row_group::{ChunkOptions, Style};

/// A version of pages, which may be none.
fn version(text: &str) -> R<u8> {
    match text.parse::<u8>() {
        Ok(number) => Ok(number),
        Err(_) => Err(Refusal::Script),
    }
}

/// A style, by its name.
fn style(text: &str) -> R<Style> {
    match text {
        "plain" => Ok(Style::Plain),
        "dictionary" => Ok(Style::Dictionary),
        "delta" => Ok(Style::Delta),
        "lengths" => Ok(Style::Lengths),
        "split" => Ok(Style::Split),
        _ => Err(Refusal::Script),
    }
}

/// Changes an option.
fn change(options: &mut WriteOptions, option: &str) -> R<()> {
    let Some((name, value)) = option.split_once('=') else {
        return Err(Refusal::Script);
    };
    match name {
        "group" => options.group_rows = small_natural(value)?,
        "page" => options.page_rows = small_natural(value)?,
        "version" => options.page_version = version(value)?,
        "style" => options.style = style(value)?,
        _ => return Err(Refusal::Script),
    }
    Ok(())
}

/// The options of a word.
pub fn options_of(text: &str) -> R<WriteOptions> {
    let mut options = WriteOptions::standard();
    if text == "standard" {
        return Ok(options);
    }
    for option in text.split(',') {
        change(&mut options, option)?;
    }
    Ok(options)
}

/// The options of the chunks of a file that is written with those of a word.
pub fn chunk_options_of(text: &str) -> R<ChunkOptions> {
    let options = options_of(text)?;
    Ok(ChunkOptions {
        page_rows: options.page_rows,
        page_version: if options.page_version == 2 {
            PageVersion::V2
        } else {
            PageVersion::V1
        },
        style: options.style,
    })
}
