//! Which files do the words of a command name?

// The options whose values are no files.
static OTHERS: [&str; 4] = ["--attr", "--steps", "--number", "--size"];

// The file that the word at a place names; an empty one where it names none. The words are those of a command, and this isn't its first.
pub(crate) fn file_at(words: &[String], place: usize) -> &str {
    if place == 0 || place >= words.len() {
        return "";
    }
    if is_other(words[place - 1].as_str()) || (place == 3 && words[0].as_str() == "value") {
        return "";
    }
    file_of_word(words[place].as_str())
}

// The file that a word names, which may have an option before it.
fn file_of_word(word: &str) -> &str {
    if let Some(file) = word.strip_prefix("--text=") {
        return file;
    }
    if let Some(file) = word.strip_prefix("--edits=") {
        return file;
    }
    if word.starts_with('-') {
        return "";
    }
    word
}

// Whether the word is an option whose value is no file.
fn is_other(word: &str) -> bool {
    for other in &OTHERS {
        if *other == word {
            return true;
        }
    }
    false
}

// The text that the words name; an empty one where they name none.
pub(crate) fn text_of(words: &[String]) -> &str {
    let mut place = 0;
    while place < words.len() {
        let word = words[place].as_str();
        if word == "--text" {
            return file_at(words, place + 1);
        }
        if let Some(file) = word.strip_prefix("--text=") {
            return file;
        }
        place += 1;
    }
    ""
}
