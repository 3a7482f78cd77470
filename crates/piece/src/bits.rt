// Values of a few bits each in bytes, the most significant bit first.
ghost use Rattle.std.specs.Prelude.{◌≡◌, ℕ, ◌+◌, ◌-◌, ◌*◌, ◌/◌, ◌%◌, ◌^◌, ◌<◌, ◌≤◌, List, [], ◌++◌, length, take, drop, MatchOption, slice_index};
ghost use Rattle.piece.specs.Bits.{bits_of, packed, bits_in, Padded, value_in, bytes_for, Fault, Holds};
ghost use Rattle.piece.specs.Pieces.{listed};

// How many bytes values of `width` bits take. A width is a number: a type for it would be made anew in each call and read
// as one field everywhere.
pub fn bytes_for(width: u32, count: usize) -> usize
    requires wide { width ≤ 16 }
    requires few { count < 2 ^ 32 }
    ensures { result ≡ bytes_for width count }
{
    (count * width as usize).div_ceil(8)
}

// Writes values into bytes. Between two values fewer than 8 bits stand over, the last `bits` of `acc`.
#[derive(Drop)]
struct Writer<'a> {
    out: &'a mut [u8],
    next: usize,
    acc: u32,
    bits: u32,
    ghost few: { bits < 8 },
    ghost small: { acc < 2 ^ bits },
    ghost room: { 8 * next + bits ≤ 8 * length out.now },
}

impl<'a> Writer<'a> {
    ghost use Rattle.piece.specs.Stream.{written};

    // Writes from the first byte on.
    fn start(out: &'a mut [u8]) -> Writer<'a>
        ensures named { result.out.ghost_name ≡ out.entry.ghost_name }
        ensures out { result.out.now ≡ out.old }
        ensures none { written result ≡ [] }
    {
        Writer {
            out,
            next: 0,
            acc: 0,
            bits: 0,
        }
    }

    // Writes the `width` bits of `v`.
    fn write(&mut self, width: u32, v: u16)
        requires wide { width ≤ 16 }
        requires fits { v < 2 ^ width }
        requires room { length (written self.old) + width ≤ 8 * length self.old.out.now }
        ensures named { self.new.out.ghost_name ≡ self.old.out.ghost_name }
        ensures size { length self.new.out.now ≡ length self.old.out.now }
        ensures same { written self.new ≡ written self.old ++ bits_of width v }
        ensures rest { drop self.new.next self.new.out.now ≡ drop self.new.next self.old.out.now }
    {
        // in locals: the ghost fields hold again only at the end
        let mut acc = (self.acc << width) | v as u32;
        let mut bits = self.bits + width;
        let mut next = self.next;
        // takes whole bytes off: no list stands behind them
        while bits >= 8 {
            bits -= 8;
            // as, where it is proved to lose nothing: try_from with unwrap says no more.
            self.out[next] = (acc >> bits) as u8;
            acc &= (1 << bits) - 1;
            next += 1;
        }
        self.acc = acc;
        self.bits = bits;
        self.next = next;
    }

    // Writes bits 0 up to a whole byte. Answers how many bytes there are.
    // By &mut self: a value with ghost fields that is taken whole cannot be written through.
    fn finish(&mut self) -> usize
        ensures named { self.new.out.ghost_name ≡ self.old.out.ghost_name }
        ensures many { result ≡ (length (written self.old) + 7) / 8 }
        ensures front { Padded (written self.old) (bits_in (take result self.new.out.now)) }
        ensures rest { drop result self.new.out.now ≡ drop result self.old.out.now }
    {
        let spare = (8 - self.bits) % 8;
        self.write(spare, 0);
        self.next
    }
}

// Writes the values, each in `width` bits, and bits 0 up to a whole byte. Answers the number of bytes.
pub fn pack(values: &[u16], width: u32, out: &mut [u8]) -> usize
    requires wide { width ≤ 16 }
    requires fit { (k : ℕ) → k < length values.now → slice_index values.now k < 2 ^ width }
    requires room { bytes_for width (length values.now) ≤ length out.old }
    ensures many { result ≡ bytes_for width (length values.now) }
    ensures front { take result out.new ≡ packed width values.now }
    ensures rest { drop result out.new ≡ drop result out.old }
{
    // The values are the bytes then. By index: of what is written through a zip of iter_mut only the length is known.
    if width == 8 {
        for (k, v) in values.iter().enumerate() {
            out[k] = *v as u8;
        }
        return values.len();
    }
    let mut writer = Writer::start(out);
    for v in values {
        writer.write(width, *v);
    }
    writer.finish()
}

// Reads values from bytes. Between two values fewer than 8 bits stand over, the last `bits` of `acc`.
// The same three fields as a writer: a struct for them would lengthen every use.
#[derive(Clone, Copy)]
struct Reader<'a> {
    bytes: &'a [u8],
    next: usize,
    acc: u32,
    bits: u32,
    ghost few: { bits < 8 },
    ghost small: { acc < 2 ^ bits },
    ghost within: { next ≤ length bytes.now },
    ghost taken: { bits ≤ 8 * next },
}

impl<'a> Reader<'a> {
    ghost use Rattle.piece.specs.Stream.{unread};

    // Reads from the first byte on.
    fn start(bytes: &'a [u8]) -> Reader<'a>
        ensures bytes { result.bytes.now ≡ bytes.now }
        ensures all { unread result ≡ bits_in bytes.now }
    {
        Reader {
            bytes,
            next: 0,
            acc: 0,
            bits: 0,
        }
    }

    // Reads a value of `width` bits.
    fn read(&mut self, width: u32) -> u16
        requires wide { width ≤ 16 }
        requires room { width ≤ length (unread self.old) }
        ensures bytes { self.new.bytes.now ≡ self.old.bytes.now }
        ensures fits { result < 2 ^ width }
        ensures value { unread self.old ≡ bits_of width result ++ unread self.new }
    {
        // in locals: the ghost fields hold again only at the end
        let mut acc = self.acc;
        let mut bits = self.bits;
        let mut next = self.next;
        // takes as many bytes as the width asks for, by the reader's own place
        while bits < width {
            acc = (acc << 8) | self.bytes[next] as u32;
            bits += 8;
            next += 1;
        }
        bits -= width;
        self.acc = acc & ((1 << bits) - 1);
        self.bits = bits;
        self.next = next;
        (acc >> bits) as u16
    }

    // The byte of the first bit that was not read.
    fn byte(&self) -> usize
        ensures byte { result ≡ (8 * length self.now.bytes.now - length (unread self.now)) / 8 }
    {
        if self.bits > 0 {
            self.next - 1
        } else {
            self.next
        }
    }
}

// Reads as many values of `width` bits as `values` has room for.
pub fn unpack(bytes: &[u8], width: u32, values: &mut [u16])
    requires wide { width ≤ 16 }
    requires room { length values.old * width ≤ 8 * length bytes.now }
    ensures each { (k : ℕ) → k < length values.new → slice_index values.new k ≡ value_in width bytes.now k }
{
    // The values are the bytes then. By index: of what is written through a zip of iter_mut only the length is known.
    if width == 8 {
        for (k, value) in values.iter_mut().enumerate() {
            *value = bytes[k] as u16;
        }
        return;
    }
    let mut reader = Reader::start(bytes);
    for value in values.iter_mut() {
        *value = reader.read(width);
    }
}

// What is wrong with bytes that are to hold `count` values below `order`: the byte where the first value of `order` or
// more begins, else the byte of the first spare bit that is 1.
pub fn fault(bytes: &[u8], width: u32, order: u16, count: usize) -> Option<usize>
    requires wide { width ≤ 16 }
    requires size { length bytes.now ≡ bytes_for width count }
    ensures found { MatchOption result (Holds order width bytes.now (listed count (value_in width bytes.now)))
        (Fault order width count bytes.now) }
{
    // any byte is a value then
    if width == 8 && order == 256 {
        return None;
    }
    let mut reader = Reader::start(bytes);
    // counts the values read, which stand in no list
    for _k in 0..count {
        let before = reader;
        if reader.read(width) >= order {
            return Some(before.byte());
        }
    }
    if reader.acc > 0 {
        return Some(reader.byte());
    }
    None
}
