// The walk: the same records as rows, as columns, and joined, one current row after another.
use crate::show::Step;
use anyhow::anyhow;
use metering::{Archive, Growth, check_sum_holds, columns, copy_record, total};
use pages::{ColumnPage, Placement, Refusal, RowPage};
use records::{Joint, Layout, Record, Source, agree};
use std::alloc::{AllocError, Global};

// The base that the site's records are kept under.
const SITE: u8 = 0;

pub fn walk(rt: &HostRuntime, archive: &Archive) -> anyhow::Result<()> {
    let heap = rt.alloc();
    let turned = columns(heap, archive.bytes(), Archive::RECORD)?;
    let mut rows = RowPage::new(archive.bytes());
    let mut cols = ColumnPage::new(turned.as_slice());
    let first = Placement {
        layout: Layout {
            length: Archive::RECORD,
        },
        start: 0,
        rows: archive.records(),
        row: 1,
    };
    told(rows.place(SITE, first))?;
    told(cols.place(SITE, first))?;
    let count = archive.records();
    println!(rt; "{count} records of 100 bytes")?;
    for row in 1..count {
        told(rows.turn(SITE, row))?;
        told(cols.turn(SITE, row))?;
        let joint = Joint::new(&rows, &cols);
        if !agree(&rows, &cols) || !agree(&rows, &joint) {
            return Err(anyhow!("the row page, the column page and their joint do not agree"));
        }
        let step = read_step(heap, &joint, row)?;
        println!(rt; "{step}")?;
    }
    let steps = count - 1;
    println!(rt; "{steps} steps: row page, column page and joint agreed on every byte")?;
    Ok(())
}

fn read_step<S: Source>(heap: Global, source: &S, row: u32) -> Result<Step, AllocError> {
    let record = copy_record(heap, source, SITE, Record::Current)?;
    let before = copy_record(heap, source, SITE, Record::Previous)?;
    let current_holds = check_sum_holds(record.as_slice());
    let previous_holds = check_sum_holds(before.as_slice());
    let growth = Growth::between(total(record.as_slice()), total(before.as_slice()));
    Ok(Step {
        row,
        record,
        current_holds,
        previous_holds,
        growth,
    })
}

// A page's refusal in this program's words; the error's own speak of a placement, which nobody sees here.
fn told(answer: Result<(), Refusal>) -> anyhow::Result<()> {
    answer.map_err(|_| anyhow!("the archive does not fit its page"))
}
