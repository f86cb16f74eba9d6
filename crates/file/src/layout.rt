// The file's words, of 32 bits, lowest byte first, and where its sections are.
ghost use Rattle.std.specs.Prelude.{◌+◌, ◌*◌, ◌≤◌, ◌∷◌, ◌≡◌, length};
ghost use Rattle.std.proofs.lemmas.List.Edits.{sets};
ghost use Rattle.mir.specs.Answers.{over};
ghost use Rattle.file.specs.File.{word_in, words_in, bytes_of_word, bytes_of, layout_of};

// Word `k` of the bytes.
pub fn word_at(bytes: &[u8], k: usize) -> u32
    requires { k * 4 + 4 ≤ length bytes.now }
    ensures { result ≡ word_in bytes.now k }
{
    let p = k * 4;
    u32::from_le_bytes([bytes[p], bytes[p + 1], bytes[p + 2], bytes[p + 3]])
}

// Puts `n` words, from word `from` on, at the start of `out`.
pub fn read_words(bytes: &[u8], from: usize, n: usize, out: &mut [u32])
    requires bytes_bound { (from + n) * 4 ≤ length bytes.now }
    requires out_room { n ≤ length out.old }
    ensures { out.new ≡ over (words_in bytes.now from n) out.old }
{
    for j in 0..n {
        out[j] = word_at(bytes, from + j);
    }
}

// Puts a word at byte `p`.
fn put_word(out: &mut [u8], p: usize, w: u32)
    requires { p + 4 ≤ length out.old }
    ensures { out.new ≡ sets out.old p (bytes_of_word w) }
{
    out[p..p + 4].copy_from_slice(&w.to_le_bytes());
}

// Puts words, and `first` before them, at the start of `out`.
pub fn write_words(first: u32, words: &[u32], out: &mut [u8])
    requires { 4 + length words.now * 4 ≤ length out.old }
    ensures { out.new ≡ over (bytes_of (first ∷ words.now)) out.old }
{
    put_word(out, 0, first);
    for (j, &word) in words.iter().enumerate() {
        put_word(out, 4 + j * 4, word);
    }
}

// Where the sections are, by their counts.
#[derive(Clone, Copy, Debug, PartialEq, Eq)]
pub struct Layout {
    pub pairs: usize,
    pub records: usize,
}

// None for a count over 512, or a file of another length.
pub fn layout_of(file: &[u8]) -> Option<Layout>
    ensures { result ≡ layout_of file.now }
{
    let len = file.len();
    if len < 28 {
        return None;
    }
    let pairs = word_at(file, 5) as usize;
    if 512 < pairs {
        return None;
    }
    let at = 6 + pairs * 2;
    if len < (at + 1) * 4 {
        return None;
    }
    let records = word_at(file, at) as usize;
    if 512 < records {
        return None;
    }
    if len != (at + 1 + records * 8) * 4 {
        return None;
    }
    Some(Layout { pairs, records })
}
