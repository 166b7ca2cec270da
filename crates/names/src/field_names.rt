// The names of tables and fields, as the layout has them.
use layout::Table;

// The mark of a table, or that it is unknown.
pub fn mark(table: Option<Table>) -> &'static str {
    match table {
        Some(Table::Co) => "CO",
        Some(Table::Re) => "RE",
        Some(Table::Ar) => "AR",
        Some(Table::Me) => "ME",
        None => "unknown",
    }
}

pub fn table_name(table: Option<Table>) -> &'static str {
    match table {
        Some(Table::Co) => "CO (conditions)",
        Some(Table::Re) => "RE (types of discount)",
        Some(Table::Ar) => "AR (additional discounts)",
        Some(Table::Me) => "ME (memo)",
        None => "unknown",
    }
}

pub fn field_name(table: Option<Table>, field: u32) -> &'static str {
    match table {
        Some(Table::Co) => of_co(field),
        Some(Table::Re) => of_re(field),
        Some(Table::Ar) => of_ar(field),
        Some(Table::Me) => of_me(field),
        None => "unknown",
    }
}

fn of_co(field: u32) -> &'static str {
    match field {
        1 => "transferor",
        2 => "offer number",
        3 => "participating railway",
        4 => "conditions of fields 4 to 26, taken as one text",
        27 => "special conditions on the number of passengers",
        28 => "minimum number of passengers",
        29 => "maximum number of passengers",
        30 => "special series",
        31..=38 => of_flag(field),
        39 => "discount",
        40 => "rounding",
        41 => "rounding factor",
        42 => "first day of validity",
        43 => "version number",
        44 => "last day of validity",
        _ => "unknown",
    }
}

fn of_flag(field: u32) -> &'static str {
    match field {
        31 => "train restrictions",
        32 => "passenger category discounts",
        33 => "additional discount",
        34 => "accompanying-person discount",
        35 => "exclusion periods",
        36 => "exchange and refund",
        37 => "extra information",
        _ => "supplement required",
    }
}

fn of_re(field: u32) -> &'static str {
    match field {
        1 => "transferor",
        2 => "discount code",
        3 => "type of discount in the country's language",
        4 => "type of discount in French",
        5 => "type of discount in German",
        6 => "type of discount in English",
        7 => "reserved",
        8 => "link",
        9 => "first day of validity",
        10 => "version number",
        11 => "last day of validity",
        _ => "unknown",
    }
}

fn of_ar(field: u32) -> &'static str {
    match field {
        1 => "transferor",
        2 => "offer number",
        3 => "participating railway",
        4 => "discount code",
        5 => "discount",
        6 => "cumulative discounts",
        7 => "rating",
        8 => "accompanying-person discount permitted",
        9 => "rounding",
        10 => "rounding factor",
        11 => "first day of validity",
        12 => "version number",
        13 => "last day of validity",
        _ => "unknown",
    }
}

fn of_me(field: u32) -> &'static str {
    match field {
        1 => "transferor",
        2 => "offer number",
        3 => "participating railway",
        4 => "extra information in the country's language",
        5 => "extra information in French",
        6 => "extra information in German",
        7 => "extra information in English",
        8 => "reserved",
        9 => "first day of validity",
        10 => "version number",
        11 => "last day of validity",
        _ => "unknown",
    }
}
