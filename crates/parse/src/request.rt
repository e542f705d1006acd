// What is asked: whether values meet a filter, over the columns of a list.
ghost use Rattle.parse.specs.code.Asking.{ValuesRead};

use ask::asked::Asked;
use columns::list::Columns;

#[derive(Clone, Copy)]
pub struct Request<'a> {
    pub asked: Asked,
    pub columns: Columns<'a>,
    // The filter.
    pub text: &'a [u8],
    // One beside each column.
    pub values: &'a [u8],
    pub ghost read: { ValuesRead asked columns.list.now values.now },
}
