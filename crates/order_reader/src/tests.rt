use crate::{
    Field, Order, OrderFail, ReadStop, Row, RowFault, all_fields, has_fields, read_orders,
    read_records, read_row,
};
use std::alloc::Global;
use std::test::Fail;

const HEADER: &str =
    "id,pallet_x,pallet_y,case_x,case_y,case_z,weight,max_height,max_weight,contact,support,cut";

const ROW: &str = "\nA,5,5,3,2,1,10,2,1000,0,0,100";

// The fault of the one row that follows the header, and its number.
fn fault_of(alloc: Global, header_end: &str, row: &str) -> Result<Option<(u32, RowFault)>, Fail> {
    let text = format!(in alloc; "{HEADER}{header_end}\n{row}\n")?;
    let rows = read_orders(alloc, text.as_bytes())?;
    match rows.as_slice() {
        [Row::Order(_)] => Ok(None),
        [Row::Refused { number, fault }] => Ok(Some((*number, *fault))),
        _ => Err(Fail::from("not one row")),
    }
}

#[test]
fn faults(rt: HostRuntime) -> Result<(), Fail> {
    let table = [
        ("A,5,5,3,2,1,10,2,1000,0,0,100", None),
        ("A,3,10,11,4,1,1,1,1,0,0,100", Some(RowFault::DoesNotFit)),
        ("A,4,11,11,4,1,1,1,1,0,0,100", None),
        ("A,401,1,1,1,1,1,1,1,0,0,100", None),
        ("A,1001,1,1,1,1,1,1,1,0,0,100", Some(RowFault::TooManyCases)),
        ("A,40,25,1,1,1,1,1,1,0,0,100", None),
        (
            "A,5,5,3,2,07,1,1,1,0,0,100",
            Some(RowFault::BadNumber {
                field: Field::CaseZ,
            }),
        ),
        (
            "A,5,5,3,2,+7,1,1,1,0,0,100",
            Some(RowFault::BadNumber {
                field: Field::CaseZ,
            }),
        ),
        (
            "A,5,5,3,2, 7,1,1,1,0,0,100",
            Some(RowFault::BadNumber {
                field: Field::CaseZ,
            }),
        ),
        (
            "A,5,5,3,2,,1,1,1,0,0,100",
            Some(RowFault::BadNumber {
                field: Field::CaseZ,
            }),
        ),
        (
            "A,4001,5,3,2,1,1,1,1,0,0,101",
            Some(RowFault::OutOfRange {
                field: Field::PalletX,
            }),
        ),
        (
            "A,0,5,3,2,1,1,1,1,0,0,100",
            Some(RowFault::OutOfRange {
                field: Field::PalletX,
            }),
        ),
        ("A,5,5,3,2,1,1,1,1,0,0", Some(RowFault::FieldCount)),
        (",5,5,3,2,x,1,1,1,0,0,100", Some(RowFault::BadId)),
    ];
    for (row, fault) in table {
        let told = fault_of(rt.alloc(), "", row)?;
        assert_eq!(rt; told, fault.map(|f| (1, f)), "{row}");
    }
    Ok(())
}

#[test]
fn gaps(rt: HostRuntime) -> Result<(), Fail> {
    let wide = fault_of(rt.alloc(), ",gap", "A,3950,10,100,10,1,1,1,1,0,0,100,51")?;
    assert_eq!(rt; wide, Some((1, RowFault::OutOfRange { field: Field::Gap })));
    assert_eq!(rt;
        fault_of(rt.alloc(), ",gap", "A,3950,10,100,10,1,1,1,1,0,0,100,50")?,
        None
    );
    let none = fault_of(rt.alloc(), ",gap", "A,5,5,2,2,1,1,1,1,0,0,100,")?;
    assert_eq!(rt; none, Some((1, RowFault::BadNumber { field: Field::Gap })));
    let short = fault_of(rt.alloc(), ",gap", "A,5,5,2,2,1,1,1,1,0,0,100")?;
    assert_eq!(rt; short, Some((1, RowFault::FieldCount)));
    Ok(())
}

#[test]
fn file_order(rt: HostRuntime) -> Result<(), Fail> {
    let mut text = String::from_str(rt.alloc(), "\u{feff}")?;
    text.push_str(HEADER)?;
    text.push_str("\r\nA,5,5,3,2,1,10,2,1000,0,0,100\r\n\"A,1\",6,6,4,1,1,1,1,1,0,0,100")?;
    text.push_str("\r\nA,7,7,3,2,1,10,2,1000,0,0,100\r\n")?;
    let rows = read_orders(rt.alloc(), text.as_bytes())?;
    let [Row::Order(first), Row::Order(second), Row::Order(third)] = rows.as_slice() else {
        return Err(Fail::from("not three orders"));
    };
    assert_eq!(rt; (first.id(), first.real().l_side), (b"A".as_slice(), 5));
    assert_eq!(rt; (second.id(), second.real().l_side), (b"A,1".as_slice(), 6));
    assert_eq!(rt; (third.id(), third.real().l_side), (b"A".as_slice(), 7));
    Ok(())
}

#[test]
fn row_counts(rt: HostRuntime) -> Result<(), Fail> {
    assert_eq!(rt;
        read_orders(rt.alloc(), b"").err(),
        Some(ReadStop::NoHeader)
    );
    assert_eq!(rt;
        read_orders(rt.alloc(), b"id,gap\n").err(),
        Some(ReadStop::NoHeader)
    );
    let mut text = String::from_str(rt.alloc(), HEADER)?;
    assert_eq!(rt; read_orders(rt.alloc(), text.as_bytes())?.len(), 0);
    for _ in 0..256 {
        text.push_str(ROW)?;
    }
    assert_eq!(rt; read_orders(rt.alloc(), text.as_bytes())?.len(), 256);
    text.push_str(ROW)?;
    assert_eq!(rt;
        read_orders(rt.alloc(), text.as_bytes()).err(),
        Some(ReadStop::TooManyRows)
    );
    Ok(())
}

#[test]
fn orders(rt: HostRuntime) -> Result<(), Fail> {
    let numbers = [5, 6, 2, 3, 1, 10, 2, 1000, 0, 0, 100, 1];
    let order = Order::new(rt.alloc(), b"A", numbers)?;
    let other = order.copied(rt.alloc())?;
    assert!(rt; order.is_same(&other));
    assert_eq!(rt; order.numbers(), numbers);
    assert_eq!(rt; (order.number(Field::Weight), order.gap()), (10, 1));
    let (real, inst) = (order.real(), order.inst());
    assert_eq!(rt;
        (real.l_side, real.w_side, real.long, real.short),
        (5, 6, 3, 2)
    );
    assert_eq!(rt;
        (inst.l_side, inst.w_side, inst.long, inst.short),
        (6, 7, 4, 3)
    );
    let refused = Order::new(rt.alloc(), b"", numbers).err();
    assert_eq!(rt; refused, Some(OrderFail::Fault(RowFault::BadId)));
    Ok(())
}

#[test]
fn names(rt: HostRuntime) -> Result<(), Fail> {
    let text = format!(in rt.alloc(); "{} {}", Field::MaxHeight, Field::Gap)?;
    assert_eq!(rt; text.as_str(), "max_height gap");
    assert_eq!(rt; Field::named(b"support"), Some(Field::Support));
    assert_eq!(rt; Field::named(b"id"), None);
    Ok(())
}

// Other files of records are read by the same parts.
#[test]
fn records_and_rows(rt: HostRuntime) -> Result<(), Fail> {
    let records = read_records(rt.alloc(), b"\xef\xbb\xbfid,x\nA,1\n")?;
    let [header, record] = records.as_slice() else {
        return Err("not two records".into());
    };
    assert!(rt; has_fields(header, &[b"id".as_slice(), b"x".as_slice()]));
    assert!(rt; !has_fields(header, &[b"id".as_slice()]));
    assert!(rt; !has_fields(record, &[b"id".as_slice(), b"x".as_slice()]));
    let row = read_row(rt.alloc(), all_fields(), 7, record)?;
    assert!(rt;
        matches!(
            row,
            Row::Refused {
                number: 7,
                fault: RowFault::FieldCount
            }
        )
    );
    Ok(())
}

// What two threads may share, and one may send to the other.
fn crosses_threads<T: Send + Sync>(_value: &T) {}

#[test]
fn threads(rt: HostRuntime) -> Result<(), Fail> {
    let row = Row::Refused {
        number: 1,
        fault: RowFault::FieldCount,
    };
    crosses_threads(&row);
    let order = Order::new(rt.alloc(), b"A", [1, 1, 1, 1, 1, 1, 1, 1, 0, 0, 0, 0])?;
    crosses_threads(&order);
    crosses_threads(&Field::Gap);
    assert_eq!(rt; order.inst().long, 1);
    Ok(())
}
