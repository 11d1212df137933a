// The table of types (001), one line each, from 1.
#![tactic(auto)]

ghost use Rattle.std.specs.Prelude.{◌≡◌, ◌-◌, ◌<◌, ◌≤◌, length};
ghost use Rattle.common.specs.Store.{part};
ghost use Rattle.text.specs.Text.{same};
ghost use Rattle.type_table.specs.Table.{table, line_in, line_of, is_line};
ghost use Rattle.type_table.specs.Rows.{names, first};

// The names of all lines, one after the other.
const NAMES: [u8; 382] =
    *b"AsciiTypeBooleanTypeBytesTypeByteTypeColumnToCollectionTypeCompositeTypeCounterColumnTypeDateTypeDecimalType\
    DoubleTypeDurationTypeDynamicCompositeTypeEmptyTypeFloatTypeFrozenTypeInetAddressTypeInt32TypeIntegerType\
    LexicalUUIDTypeListTypeLongTypeMapTypePartitionerDefinedOrderReversedTypeSetTypeShortTypeSimpleDateType\
    TimestampTypeTimeTypeTimeUUIDTypeTupleTypeUserTypeUTF8TypeUUIDType";

// Where the name of each line ends in NAMES, from line 0, which has none.
const ENDS: [u16; 35] = [
    0, // no line
    9, // 1 AsciiType
    20, // 2 BooleanType
    29, // 3 BytesType
    37, // 4 ByteType
    59, // 5 ColumnToCollectionType
    72, // 6 CompositeType
    89, // 7 CounterColumnType
    97, // 8 DateType
    108, // 9 DecimalType
    118, // 10 DoubleType
    130, // 11 DurationType
    150, // 12 DynamicCompositeType
    159, // 13 EmptyType
    168, // 14 FloatType
    178, // 15 FrozenType
    193, // 16 InetAddressType
    202, // 17 Int32Type
    213, // 18 IntegerType
    228, // 19 LexicalUUIDType
    236, // 20 ListType
    244, // 21 LongType
    251, // 22 MapType
    274, // 23 PartitionerDefinedOrder
    286, // 24 ReversedType
    293, // 25 SetType
    302, // 26 ShortType
    316, // 27 SimpleDateType
    329, // 28 TimestampType
    337, // 29 TimeType
    349, // 30 TimeUUIDType
    358, // 31 TupleType
    366, // 32 UserType
    374, // 33 UTF8Type
    382, // 34 UUIDType
];

// Where the name of a line ends in NAMES.
fn end_of(line: u8) -> usize
    requires { line ≤ 34 }
    ensures { result ≡ length (names (first line table)) }
{
    ENDS[line as usize] as usize
}

// Whether the table has that line.
pub fn is_line(line: u8) -> bool
    ensures { result ≡ is_line line }
{
    if line == 0 {
        return false;
    }
    line <= 34
}

// Whether a line's type takes parameters.
// Internal: for the crates above.
pub fn takes_parameters(line: u8) -> bool
    ensures { result ≡ (line_of line).parameters }
{
    if 34 < line {
        return false;
    }
    match line {
        // ColumnToCollection, Composite, DynamicComposite, Frozen, List, Map, PartitionerDefinedOrder, Reversed, Set, Tuple, User
        5 | 6 | 12 | 15 | 20 | 22 | 23 | 24 | 25 | 31 | 32 => true,
        _ => false, // all others
    }
}

// The width of a line's values, or 255 where it is variable.
// Internal: for the crates above.
pub fn width(line: u8) -> u8
    ensures { result ≡ (line_of line).width }
{
    if 34 < line {
        return 0;
    }
    match line {
        0 => 0, // no line
        2 => 1, // Boolean
        14 | 17 => 4, // Float, Int32
        8 | 10 | 21 | 28 => 8, // Date, Double, Long, Timestamp
        19 | 30 | 34 => 16, // LexicalUUID, TimeUUID, UUID
        _ => 255,
    }
}

// Whether a line's values have an order.
// Internal: for the crates above.
pub fn is_ordered(line: u8) -> bool
    ensures { result ≡ (line_of line).ordered }
{
    if 34 < line {
        return false;
    }
    match line {
        1 | 2 | 3 | 17 | 21 | 28 | 33 => true, // Ascii, Boolean, Bytes, Int32, Long, Timestamp, UTF8
        _ => false, // no order
    }
}

// Whether a static or regular column may have a line's type.
// Internal: for the crates above.
pub fn is_of_columns(line: u8) -> bool
    ensures { result ≡ (line_of line).column }
{
    if 34 < line {
        return false;
    }
    match line {
        0 => false, // no line
        7 | 20 | 22 | 25 | 32 => false, // CounterColumn, List, Map, Set, User
        _ => true,
    }
}

// Whether a part of a is b.
fn has_part(a: &[u8], from: usize, to: usize, b: &[u8]) -> bool
    requires { (from ≤ to) × (to ≤ length a.now) }
    ensures { result ≡ same (part a.now from (to - from)) b.now }
{
    text::equal(&a[from..to], b)
}

// Whether a line of the table has the name.
fn has_name(line: u8, name: &[u8]) -> bool
    requires { (0 < line) × (line ≤ 34) }
    ensures { result ≡ same (line_of line).name name.now }
{
    let from = end_of(line - 1);
    let to = end_of(line);
    has_part(&NAMES, from, to, name)
}

// The line that has the name, or 0.
// Internal: for the crates above.
pub fn find(name: &[u8]) -> u8
    ensures { result ≡ line_in 1 table name.now }
{
    for line in 1..35 {
        if has_name(line, name) {
            return line;
        }
    }
    0
}
