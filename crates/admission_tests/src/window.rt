//! The percentile of the last samples.
use admission::SampleWindow;
use std::test::Fail;

#[test]
fn the_percentile_is_at_the_nearest_rank(rt: HostRuntime) -> Result<(), Fail> {
    // one sample is its own percentile; ten have it at rank 9, eleven at rank 10
    let mut window = SampleWindow::new(rt.alloc(), 11)?;
    assert_eq!(rt; window.percentile(), None);
    for sample in 1..12u64 {
        window.add(sample)?;
        if sample == 1 {
            assert_eq!(rt; window.percentile(), Some(1));
        }
        if sample == 10 {
            assert_eq!(rt; window.percentile(), Some(9));
        }
    }
    assert_eq!(rt; window.percentile(), Some(10));
    Ok(())
}

#[test]
fn a_full_window_gives_up_its_oldest_sample(rt: HostRuntime) -> Result<(), Fail> {
    // the response times of sixteen requests that are 100 ticks apart: two of 9, the others of 7
    let mut window = SampleWindow::new(rt.alloc(), 10)?;
    for (count, sample) in [9, 9, 7, 7, 7, 7, 7, 7, 7, 7, 7, 7, 7, 7, 7, 7]
        .iter()
        .enumerate()
    {
        window.add(*sample)?;
        if count == 4 || count == 9 {
            assert_eq!(rt; window.percentile(), Some(9), "after {count}");
        }
        if count == 14 {
            assert_eq!(rt; window.percentile(), Some(7), "after {count}");
        }
    }
    Ok(())
}

#[test]
fn a_window_of_one_holds_the_last_sample(rt: HostRuntime) -> Result<(), Fail> {
    let mut window = SampleWindow::new(rt.alloc(), 1)?;
    for sample in [5, 5, 2, 9, 9, 1] {
        window.add(sample)?;
        assert_eq!(rt; window.percentile(), Some(sample));
    }
    Ok(())
}
